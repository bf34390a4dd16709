//! What the names at the top of a text stand for, and the variables in scope.
use crate::finding::What;
use crate::table::Table;
use crate::types::{Base, INT, Type};
use sk_base::{Name, Span};
use sk_tree::{Base as BaseTree, EForm, Expr, Field, FunItem, Item, Mark, Tree, TyTree};
use std::alloc::{AllocError, Global};

// The greatest length of an array.
const LONGEST: i64 = 64;

/// A constant or a variable.
#[derive(Drop, Clone, Copy)]
pub struct Known<'a> {
    // Where it is known.
    ty: Option<Type<'a>>,
    // Of a constant, where it is known.
    value: Option<i64>,
}

// The constants and variables in scope, the nearest one of each name.
#[derive(Drop)]
struct Names<'a> {
    known: Vec<Known<'a>>,
    places: Table,
}

impl<'a> Names<'a> {
    fn new(alloc: Global) -> Names<'a> {
        Names {
            known: Vec::new(alloc),
            places: Table::new(alloc),
        }
    }

    // The nearest one of a name.
    fn get(&self, name: &[u8]) -> Option<&Known<'a>> {
        self.known.as_slice().get(self.places.get(name)?)
    }

    // Adds one, which hides those of its name before.
    fn add(&mut self, name: &[u8], one: Known<'a>) -> Result<(), AllocError> {
        self.places.put(name, self.known.len())?;
        self.known.push(one)?;
        Ok(())
    }
}

/// What a statement is typed by.
#[derive(Drop)]
pub struct Scope<'a> {
    items: &'a [Item],
    // The places of functions and of structs among the items.
    functions: Table,
    structs: Table,
    names: Names<'a>,
    /// Of the function, where it is known.
    pub result: Option<Type<'a>>,
    /// Whether the function has none.
    pub is_void: bool,
    /// What is looked for.
    pub span: Span,
}

// A sum, a difference or a product.
fn combined(op: Mark, left: i64, right: i64) -> Option<i64> {
    match op {
        Mark::Plus => left.checked_add(right),
        Mark::Minus => left.checked_sub(right),
        Mark::Star => left.checked_mul(right),
        _ => None,
    }
}

// The value of a constant expression.
fn value_of(names: &Names<'_>, e: &Expr) -> Option<i64> {
    match &e.form {
        EForm::Number(number) => Some(i64::from(*number)),
        EForm::Word(name) => names.get(name.as_bytes())?.value,
        EForm::Paren(of) => value_of(names, of.get()),
        EForm::Binary { op, left, right } => {
            let left = value_of(names, left.get())?;
            let right = value_of(names, right.get())?;
            combined(*op, left, right)
        }
        _ => None,
    }
}

impl<'a> Scope<'a> {
    /// What stands at the top of a text.
    pub fn of_tree(alloc: Global, tree: &'a Tree, span: Span) -> Result<Scope<'a>, AllocError> {
        let mut scope = Scope {
            items: tree.items.as_slice(),
            functions: Table::new(alloc),
            structs: Table::new(alloc),
            names: Names::new(alloc),
            result: None,
            is_void: false,
            span,
        };
        for (at, item) in tree.items.as_slice().iter().enumerate() {
            scope.add_item(at, item)?;
        }
        Ok(scope)
    }

    // Adds what stands at a place among the items.
    fn add_item(&mut self, at: usize, item: &'a Item) -> Result<(), AllocError> {
        match item {
            Item::Const { name, value } => {
                let value = value_of(&self.names, value);
                let one = Known {
                    ty: Some(INT),
                    value,
                };
                self.names.add(name.as_bytes(), one)
            }
            Item::Fun(fun) => self.functions.put(fun.name.as_bytes(), at),
            Item::Struct { name, .. } => self.structs.put(name.as_bytes(), at),
            Item::Pragma { .. } => Ok(()),
        }
    }

    /// The items of the text.
    pub fn items(&self) -> &'a [Item] {
        self.items
    }

    /// The length that an expression is, where it is known to be one.
    pub fn length(&self, e: &Expr) -> Option<i64> {
        let value = value_of(&self.names, e)?;
        if 1 <= value && value <= LONGEST {
            Some(value)
        } else {
            None
        }
    }

    /// The type of a constant or a variable, where it is known.
    pub fn variable(&self, name: &[u8]) -> Option<Type<'a>> {
        self.names.get(name)?.ty
    }

    /// Adds a variable, with its type where that is known.
    pub fn add(&mut self, name: &Name, ty: Option<Type<'a>>) -> Result<(), AllocError> {
        self.names.add(name.as_bytes(), Known { ty, value: None })
    }

    /// A type that is written, where its lengths are known.
    pub fn ty(&self, ty: &'a TyTree) -> Option<Type<'a>> {
        let base = match &ty.base {
            BaseTree::Int => Base::Int,
            BaseTree::Bit => Base::Bit,
            BaseTree::Named(name) => Base::Struct(name.as_bytes()),
        };
        let (inner, outer) = match ty.lengths.as_slice() {
            [] => (0, 0),
            [outer] => (0, self.length(outer)?),
            [inner, outer, ..] => (self.length(inner)?, self.length(outer)?),
        };
        Some(Type { base, inner, outer })
    }

    /// The function of a name.
    pub fn function(&self, name: &[u8]) -> Option<&'a FunItem> {
        match self.items.get(self.functions.get(name)?)? {
            Item::Fun(fun) => Some(fun),
            Item::Struct { .. } | Item::Const { .. } | Item::Pragma { .. } => None,
        }
    }

    // The struct of a name: the name where it is declared, and the fields.
    fn record(&self, of: &[u8]) -> Option<(&'a Name, &'a [Field])> {
        match self.items.get(self.structs.get(of)?)? {
            Item::Struct { name, fields } => Some((name, fields.as_slice())),
            Item::Fun(_) | Item::Const { .. } | Item::Pragma { .. } => None,
        }
    }

    /// The fields of a struct.
    pub fn fields(&self, of: &[u8]) -> Option<&'a [Field]> {
        let (_, fields) = self.record(of)?;
        Some(fields)
    }

    /// A reference to a record of a struct, where the struct is there.
    pub fn reference(&self, of: &[u8]) -> Option<Type<'a>> {
        let (name, _) = self.record(of)?;
        Some(Type {
            base: Base::Struct(name.as_bytes()),
            inner: 0,
            outer: 0,
        })
    }

    /// The type of a field of a struct.
    pub fn field(&self, of: &[u8], name: &[u8]) -> Option<Type<'a>> {
        for field in self.fields(of)? {
            if field.name.is(name) {
                return self.ty(&field.ty);
            }
        }
        None
    }

    /// The names of the functions, of the structs or of the fields of a struct.
    pub fn names(&self, alloc: Global, what: What<'a>) -> Result<Vec<&'a [u8]>, AllocError> {
        let mut names = Vec::new(alloc);
        if let What::Field(of) = what {
            for field in self.fields(of).unwrap_or(&[]) {
                names.push(field.name.as_bytes())?;
            }
            return Ok(names);
        }
        for item in self.items {
            match item {
                Item::Fun(fun) if what == What::Function => names.push(fun.name.as_bytes())?,
                Item::Struct { name, .. } if what == What::Struct => names.push(name.as_bytes())?,
                _ => {}
            }
        }
        Ok(names)
    }
}
