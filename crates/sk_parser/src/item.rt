//! Items and whole texts read from tokens: `tree_at` of specs is the function on lists that this code computes.
ghost use Rattle.std.specs.Prelude.{◌≡◌, Some, None, option_map};
ghost use Rattle.sk_parser_laws.specs.Readers.{Gives, repeated};
ghost use Rattle.sk_parser_laws.specs.ExprReader.{ends_row};
ghost use Rattle.sk_parser_laws.specs.StmtReader.{ends_block};
ghost use Rattle.sk_parser_laws.specs.ItemReader.{pragma_at, next_member, struct_at, const_at, ref_at, param_at, next_param, any_params_at, params_at, kind_at, result_at, implements_at, body_at, named_fun_at, fun_at, gets_ahead, int_item_at, item_at, next_item, ends_text, tree_at};

use sk_base::{List, Name};
use sk_parser_exprs::ends_row;
use sk_parser_exprs::token::{begins, begins_key, copy, key_at, mark_at, text_at, word_at};
use sk_parser_laws::Stop;
use sk_parser_stmts::{ends_block, stmts_at, ty_at, value_at};
use sk_tree::{Field, FunItem, FunKind, Item, Key, Kind, Mark, Param, Stmt, Token, Tree, TyTree};
use std::alloc::Global;

/// How deep types of fields and of results, and statements of a body may be, where the tree is at most
/// 256 deep.
const PART_LEVELS: u32 = 253;

/// How deep types of parameters may be.
const PARAM_LEVELS: u32 = 252;

/// How deep values of constants may be.
const CONST_LEVELS: u32 = 254;

// Behind `pragma`.
#[tactic(auto, unfolding(sk_parser_laws::specs::ItemReader::pragma_at))]
fn pragma_at<'a>(alloc: Global, tokens: &'a [Token]) -> Result<(Item, &'a [Token]), Stop>
    ensures { Gives (λ x. (x.0, x.1.now)) result (pragma_at tokens.now) }
{
    let Some((word, after)) = word_at(tokens) else {
        return Err(Stop::NoReading(tokens.len()));
    };
    let Some((text, after)) = text_at(after) else {
        return Err(Stop::NoReading(after.len()));
    };
    let Some(rest) = mark_at(after, Mark::Semicolon) else {
        return Err(Stop::NoReading(after.len()));
    };
    let word = copy(alloc, word)?;
    let text = copy(alloc, text)?;
    Ok((Item::Pragma { word, text }, rest))
}

// A field of a struct.
#[tactic(auto, unfolding(sk_parser_laws::specs::ItemReader::next_member))]
fn next_member<'a>(
    alloc: Global,
    fields: List<Field>,
    tokens: &'a [Token],
) -> Result<(List<Field>, &'a [Token]), Stop>
    ensures { Gives (λ x. (x.0, x.1.now)) result (next_member fields tokens.now) }
{
    let mut fields = fields;
    let (ty, after) = ty_at(alloc, PART_LEVELS, tokens)?;
    let Some((name, after)) = word_at(after) else {
        return Err(Stop::NoReading(after.len()));
    };
    let Some(rest) = mark_at(after, Mark::Semicolon) else {
        return Err(Stop::NoReading(after.len()));
    };
    let name = copy(alloc, name)?;
    fields.push(Field { ty, name })?;
    Ok((fields, rest))
}

fn members_at<'a>(
    alloc: Global,
    fields: List<Field>,
    tokens: &'a [Token],
) -> Result<(List<Field>, &'a [Token]), Stop>
    ensures { Gives (λ x. (x.0, x.1.now)) result (repeated ends_block next_member fields tokens.now) }
{
    let mut so_far = fields;
    let mut rest = tokens;
    while !ends_block(rest) {
        let (more, behind) = next_member(alloc, so_far, rest)?;
        so_far = more;
        rest = behind;
    }
    Ok((so_far, rest))
}

// Behind `struct`.
#[tactic(auto, unfolding(sk_parser_laws::specs::ItemReader::struct_at))]
fn struct_at<'a>(alloc: Global, tokens: &'a [Token]) -> Result<(Item, &'a [Token]), Stop>
    ensures { Gives (λ x. (x.0, x.1.now)) result (struct_at tokens.now) }
{
    let Some((name, after)) = word_at(tokens) else {
        return Err(Stop::NoReading(tokens.len()));
    };
    let Some(after) = mark_at(after, Mark::OpenBrace) else {
        return Err(Stop::NoReading(after.len()));
    };
    let (fields, behind) = members_at(alloc, List::new(alloc), after)?;
    let Some(rest) = mark_at(behind, Mark::CloseBrace) else {
        return Err(Stop::NoReading(behind.len()));
    };
    let name = copy(alloc, name)?;
    Ok((Item::Struct { name, fields }, rest))
}

// A constant, behind its `int`.
#[tactic(auto, unfolding(sk_parser_laws::specs::ItemReader::const_at))]
fn const_at<'a>(alloc: Global, tokens: &'a [Token]) -> Result<(Item, &'a [Token]), Stop>
    ensures { Gives (λ x. (x.0, x.1.now)) result (const_at tokens.now) }
{
    let Some((name, after)) = word_at(tokens) else {
        return Err(Stop::NoReading(tokens.len()));
    };
    let Some(after) = mark_at(after, Mark::Assign) else {
        return Err(Stop::NoReading(after.len()));
    };
    let (value, behind) = value_at(alloc, CONST_LEVELS, after)?;
    let Some(rest) = mark_at(behind, Mark::Semicolon) else {
        return Err(Stop::NoReading(behind.len()));
    };
    let name = copy(alloc, name)?;
    let value = value.into_inner();
    Ok((Item::Const { name, value }, rest))
}

// `ref`, where it stands.
#[tactic(auto, unfolding(sk_parser_laws::specs::ItemReader::ref_at))]
fn ref_at(tokens: &[Token]) -> Option<(bool, &[Token])>
    ensures { option_map (λ x. (x.0, x.1.now)) result ≡ ref_at tokens.now }
{
    if begins_key(tokens, Key::Ref) {
        match key_at(tokens, Key::Ref) {
            Some(rest) => Some((true, rest)),
            None => None,
        }
    } else {
        Some((false, tokens))
    }
}

// One parameter more.
#[tactic(auto, unfolding(sk_parser_laws::specs::ItemReader::param_at))]
fn param_at<'a>(
    alloc: Global,
    params: List<Param>,
    tokens: &'a [Token],
) -> Result<(List<Param>, &'a [Token]), Stop>
    ensures { Gives (λ x. (x.0, x.1.now)) result (param_at params tokens.now) }
{
    let mut params = params;
    let Some((by_ref, after)) = ref_at(tokens) else {
        return Err(Stop::NoReading(tokens.len()));
    };
    let (ty, after) = ty_at(alloc, PARAM_LEVELS, after)?;
    let Some((name, rest)) = word_at(after) else {
        return Err(Stop::NoReading(after.len()));
    };
    let name = copy(alloc, name)?;
    params.push(Param { by_ref, ty, name })?;
    Ok((params, rest))
}

// A parameter behind a comma.
#[tactic(auto, unfolding(sk_parser_laws::specs::ItemReader::next_param))]
fn next_param<'a>(
    alloc: Global,
    params: List<Param>,
    tokens: &'a [Token],
) -> Result<(List<Param>, &'a [Token]), Stop>
    ensures { Gives (λ x. (x.0, x.1.now)) result (next_param params tokens.now) }
{
    let Some(after) = mark_at(tokens, Mark::Comma) else {
        return Err(Stop::NoReading(tokens.len()));
    };
    param_at(alloc, params, after)
}

fn more_params<'a>(
    alloc: Global,
    params: List<Param>,
    tokens: &'a [Token],
) -> Result<(List<Param>, &'a [Token]), Stop>
    ensures { Gives (λ x. (x.0, x.1.now)) result (repeated ends_row next_param params tokens.now) }
{
    let mut so_far = params;
    let mut rest = tokens;
    while !ends_row(rest) {
        let (more, behind) = next_param(alloc, so_far, rest)?;
        so_far = more;
        rest = behind;
    }
    Ok((so_far, rest))
}

// Any number of parameters.
#[tactic(auto, unfolding(sk_parser_laws::specs::ItemReader::any_params_at))]
fn any_params_at<'a>(alloc: Global, tokens: &'a [Token]) -> Result<(List<Param>, &'a [Token]), Stop>
    ensures { Gives (λ x. (x.0, x.1.now)) result (any_params_at tokens.now) }
{
    let none = List::new(alloc);
    if begins(tokens, Mark::CloseParen) {
        return Ok((none, tokens));
    }
    let (first, rest) = param_at(alloc, none, tokens)?;
    let read = more_params(alloc, first, rest)?;
    Ok(read)
}

// Parameters up to a closing parenthesis, and the tokens after it.
#[tactic(auto, unfolding(sk_parser_laws::specs::ItemReader::params_at))]
fn params_at<'a>(alloc: Global, tokens: &'a [Token]) -> Result<(List<Param>, &'a [Token]), Stop>
    ensures { Gives (λ x. (x.0, x.1.now)) result (params_at tokens.now) }
{
    let (params, behind) = any_params_at(alloc, tokens)?;
    let Some(rest) = mark_at(behind, Mark::CloseParen) else {
        return Err(Stop::NoReading(behind.len()));
    };
    Ok((params, rest))
}

// `harness` or `generator`, where it stands.
#[tactic(auto, unfolding(sk_parser_laws::specs::ItemReader::kind_at))]
fn kind_at(tokens: &[Token]) -> (FunKind, &[Token])
    ensures { (result.0, result.1.now) ≡ kind_at tokens.now }
{
    match tokens.split_first() {
        Some((token, after)) => match token.kind {
            Kind::Key(Key::Harness) => (FunKind::Harness, after),
            Kind::Key(Key::Generator) => (FunKind::Generator, after),
            _ => (FunKind::Plain, tokens),
        },
        None => (FunKind::Plain, tokens),
    }
}

// A type, or `void`.
#[tactic(auto, unfolding(sk_parser_laws::specs::ItemReader::result_at))]
fn result_at<'a>(alloc: Global, tokens: &'a [Token]) -> Result<(Option<TyTree>, &'a [Token]), Stop>
    ensures { Gives (λ x. (x.0, x.1.now)) result (result_at tokens.now) }
{
    if !begins_key(tokens, Key::Void) {
        let (ty, rest) = ty_at(alloc, PART_LEVELS, tokens)?;
        return Ok((Some(ty), rest));
    }
    match key_at(tokens, Key::Void) {
        Some(rest) => Ok((None, rest)),
        None => Err(Stop::NoReading(tokens.len())),
    }
}

// `implements` with its name, where it stands.
#[tactic(auto, unfolding(sk_parser_laws::specs::ItemReader::implements_at))]
fn implements_at<'a>(
    alloc: Global,
    tokens: &'a [Token],
) -> Result<(Option<Name>, &'a [Token]), Stop>
    ensures { Gives (λ x. (x.0, x.1.now)) result (implements_at tokens.now) }
{
    if !begins_key(tokens, Key::Implements) {
        return Ok((None, tokens));
    }
    let Some(after) = key_at(tokens, Key::Implements) else {
        return Err(Stop::NoReading(tokens.len()));
    };
    let Some((name, rest)) = word_at(after) else {
        return Err(Stop::NoReading(after.len()));
    };
    let name = copy(alloc, name)?;
    Ok((Some(name), rest))
}

// A block of statements.
#[tactic(auto, unfolding(sk_parser_laws::specs::ItemReader::body_at))]
fn body_at<'a>(alloc: Global, tokens: &'a [Token]) -> Result<(List<Stmt>, &'a [Token]), Stop>
    ensures { Gives (λ x. (x.0, x.1.now)) result (body_at tokens.now) }
{
    let Some(after) = mark_at(tokens, Mark::OpenBrace) else {
        return Err(Stop::NoReading(tokens.len()));
    };
    let read = stmts_at(alloc, PART_LEVELS, after)?;
    Ok(read)
}

// A function, behind its result.
#[tactic(auto, unfolding(sk_parser_laws::specs::ItemReader::named_fun_at))]
fn named_fun_at<'a>(
    alloc: Global,
    kind: FunKind,
    answer: Option<TyTree>,
    tokens: &'a [Token],
) -> Result<(Item, &'a [Token]), Stop>
    ensures { Gives (λ x. (x.0, x.1.now)) result (named_fun_at kind answer tokens.now) }
{
    let Some((name, after)) = word_at(tokens) else {
        return Err(Stop::NoReading(tokens.len()));
    };
    let Some(after) = mark_at(after, Mark::OpenParen) else {
        return Err(Stop::NoReading(after.len()));
    };
    let (params, behind) = params_at(alloc, after)?;
    let (implements, behind) = implements_at(alloc, behind)?;
    let (body, rest) = body_at(alloc, behind)?;
    let name = copy(alloc, name)?;
    Ok((
        Item::Fun(FunItem {
            kind,
            result: answer,
            name,
            params,
            implements,
            body,
        }),
        rest,
    ))
}

// A function.
#[tactic(auto, unfolding(sk_parser_laws::specs::ItemReader::fun_at))]
fn fun_at<'a>(alloc: Global, tokens: &'a [Token]) -> Result<(Item, &'a [Token]), Stop>
    ensures { Gives (λ x. (x.0, x.1.now)) result (fun_at tokens.now) }
{
    let (kind, after) = kind_at(tokens);
    let (answer, after) = result_at(alloc, after)?;
    let read = named_fun_at(alloc, kind, answer, after)?;
    Ok(read)
}

// Whether `=` follows the first token, as behind the `int` of a constant.
#[tactic(auto, unfolding(sk_parser_laws::specs::ItemReader::gets_ahead))]
fn gets_ahead(tokens: &[Token]) -> bool
    ensures { result ≡ gets_ahead tokens.now }
{
    match tokens.split_first() {
        Some((_, after)) => begins(after, Mark::Assign),
        None => false,
    }
}

// What begins with `int`: a constant, or a function.
#[tactic(auto, unfolding(sk_parser_laws::specs::ItemReader::int_item_at))]
fn int_item_at<'a>(
    alloc: Global,
    start: &'a [Token],
    tokens: &'a [Token],
) -> Result<(Item, &'a [Token]), Stop>
    ensures { Gives (λ x. (x.0, x.1.now)) result (int_item_at start.now tokens.now) }
{
    if gets_ahead(tokens) {
        const_at(alloc, tokens)
    } else {
        fun_at(alloc, start)
    }
}

// The item at the front.
#[tactic(auto, unfolding(sk_parser_laws::specs::ItemReader::item_at))]
fn item_at<'a>(alloc: Global, tokens: &'a [Token]) -> Result<(Item, &'a [Token]), Stop>
    ensures { Gives (λ x. (x.0, x.1.now)) result (item_at tokens.now) }
{
    let Some((token, after)) = tokens.split_first() else {
        return Err(Stop::NoReading(tokens.len()));
    };
    match &token.kind {
        Kind::Key(Key::Pragma) => pragma_at(alloc, after),
        Kind::Key(Key::Struct) => struct_at(alloc, after),
        Kind::Key(Key::Int) => int_item_at(alloc, tokens, after),
        _ => fun_at(alloc, tokens),
    }
}

// One item more.
#[tactic(auto, unfolding(sk_parser_laws::specs::ItemReader::next_item))]
fn next_item<'a>(
    alloc: Global,
    items: List<Item>,
    tokens: &'a [Token],
) -> Result<(List<Item>, &'a [Token]), Stop>
    ensures { Gives (λ x. (x.0, x.1.now)) result (next_item items tokens.now) }
{
    let mut items = items;
    let (item, rest) = item_at(alloc, tokens)?;
    items.push(item)?;
    Ok((items, rest))
}

// Whether no token is left.
#[tactic(auto, unfolding(sk_parser_laws::specs::ItemReader::ends_text))]
fn ends_text(tokens: &[Token]) -> bool
    ensures { result ≡ ends_text tokens.now }
{
    match tokens.split_first() {
        Some(_) => false,
        None => true,
    }
}

fn items_at<'a>(
    alloc: Global,
    items: List<Item>,
    tokens: &'a [Token],
) -> Result<(List<Item>, &'a [Token]), Stop>
    ensures { Gives (λ x. (x.0, x.1.now)) result (repeated ends_text next_item items tokens.now) }
{
    let mut so_far = items;
    let mut rest = tokens;
    while !ends_text(rest) {
        let (more, behind) = next_item(alloc, so_far, rest)?;
        so_far = more;
        rest = behind;
    }
    Ok((so_far, rest))
}

/// The tree of all the tokens.
#[tactic(auto, unfolding(sk_parser_laws::specs::ItemReader::tree_at))]
pub fn tree_at(alloc: Global, tokens: &[Token]) -> Result<Tree, Stop>
    ensures { Gives (λ tree. tree) result (tree_at tokens.now) }
{
    let (items, _) = items_at(alloc, List::new(alloc), tokens)?;
    Ok(Tree { items })
}
