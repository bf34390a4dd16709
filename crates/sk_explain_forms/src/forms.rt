//! The forms that are left out, and what to write in place of each.

/// A form of C or of the original Sketch that the language leaves out.
#[derive(Debug, Clone, Copy, PartialEq, Eq)]
pub enum LeftOut {
    /// `0x55` or `0b101`
    Base,
    /// `5u`
    Suffix,
    /// `'a'`
    Character,
    /// `3.14`
    Point,
    /// `"text"` behind what is asserted
    Message,
    /// `"text"` elsewhere
    Quoted,
    /// `#define`
    Define,
    /// `#include` or `include`
    Include,
    /// `package`
    Package,
    /// `(int) x`
    Cast,
    /// `p->f`
    Arrow,
    /// `x *= e`
    Update,
    Break,
    Continue,
    Do,
    Loop,
    /// `case 1:`
    NumberCase,
    Const,
    /// `unsigned int`
    Modifier,
    /// `static int`
    Storage,
    /// `if (x = 3)`
    Equals,
    /// `and`, `or`
    Conjunction,
    /// `??(0, 7)`
    HoleRange,
    /// `generator` behind a type or a name
    LateGenerator,
    /// `harness` behind a type or a name
    LateHarness,
    /// `new S(v)`
    Unnamed,
    /// `new S` without parentheses
    BareNew,
    /// `a[0::2] = b`
    SliceTarget,
    /// `int a[4]`
    LateLength,
    /// `int *p`
    Pointer,
    /// `struct S p`
    StructWord,
    /// `int g();`
    Prototype,
    /// `int x;` at the top
    Global,
    /// `f(void)`
    NoParameters,
    /// `enum`, `typedef`, `union`
    OtherItem,
    /// `struct S { .. };`
    EndedItem,
    /// `for (;;)`
    PartOfFor,
}

impl LeftOut {
    /// What to write.
    pub fn note(self) -> &'static [u8] {
        match self {
            LeftOut::Base => b"a number is spelt by decimal digits alone",
            LeftOut::Suffix => b"a number is digits alone, with nothing behind them",
            LeftOut::Character => b"characters are left out: write numbers",
            LeftOut::Point => b"numbers with a point are left out: int and bit are all there is",
            LeftOut::Message => b"assert has no message: write it into a comment",
            LeftOut::Quoted => b"a text in quotes stands in a pragma alone",
            LeftOut::Define => b"there is no #define: write a constant at the top, as int N = 8;",
            LeftOut::Include => b"a sketch is one text: write into it what is to be included",
            LeftOut::Package => b"packages are left out: write their items at the top",
            LeftOut::Cast => {
                b"casts are left out: a bit stands for an int as it is, an int n as a bit is n != 0, and a bit[n] is no int"
            }
            LeftOut::Arrow => b"'->' is left out: write a dot",
            LeftOut::Update => b"of such assignments there are += and -= alone",
            LeftOut::Break => b"break is left out: let the condition of the loop say when it ends",
            LeftOut::Continue => b"continue is left out: put the rest of the body into an if",
            LeftOut::Do =>
                b"do is left out: write its body once in front of while (c) and once behind it",
            LeftOut::Loop => b"loop is left out: repeat (n) makes copies, and while (c) is a loop",
            LeftOut::NumberCase => b"a switch on numbers is left out: write if (x == 1) .. else ..",
            LeftOut::Const => {
                b"const is left out: a name at the top with a value is a constant, as int N = 8;"
            }
            LeftOut::Modifier => b"int is the one type of numbers",
            LeftOut::Storage => b"a declaration begins with its type",
            LeftOut::Equals => b"'=' assigns, and stands in no condition: to compare write ==",
            LeftOut::Conjunction => b"in conditions stand && and ||, and ! for not",
            LeftOut::HoleRange => {
                b"a hole has no range: ??(n) is 0 to 2^n - 1, and assert can say more of it"
            }
            LeftOut::LateGenerator => b"generator stands first: generator int g(..) { .. }",
            LeftOut::LateHarness => b"harness stands first: harness void f(..) { .. }",
            LeftOut::Unnamed => b"new names each field that it sets: new S(f = e, g = d)",
            LeftOut::BareNew => b"new has parentheses: new S(f = e), or new S() for zeros",
            LeftOut::SliceTarget => b"a slice cannot be assigned: assign its elements one by one",
            LeftOut::LateLength =>
                b"a length stands behind the type, and not behind the name: int[4] a;",
            LeftOut::Pointer => {
                b"there are no pointers: a variable of a struct's type is a reference, and ref x a parameter that is copied back"
            }
            LeftOut::StructWord =>
                b"struct stands where a struct is declared alone: its type is its name",
            LeftOut::Prototype => {
                b"each function has its body where it is declared; functions may stand in any order"
            }
            LeftOut::Global => {
                b"at the top stand constants, as int N = 8; alone: other variables stand in functions"
            }
            LeftOut::NoParameters =>
                b"a function without parameters has nothing between its parentheses",
            LeftOut::OtherItem => b"a text has structs, constants, functions and pragmas alone",
            LeftOut::EndedItem => b"no ; stands behind a brace that ends an item",
            LeftOut::PartOfFor => {
                b"a for has all three parts, each once: for (int i = 0; i < n; i++); else write while (c)"
            }
        }
    }
}
