//! The names of a text with algebraic types, and its variants by their names.
ghost use Rattle.std.specs.Prelude.{◌≡◌, ◌++◌, map, IfOk, OnOk, option_map};
ghost use Rattle.sk_adt.specs.declared.form.CaseForm.{out-CaseForm};
ghost use Rattle.sk_adt.specs.Words.{each, variant_words, type_words, types_of_piece, types_of_case, types_in, switches_of_piece, switches_of_case, switches_in, variant_of, algebraic_of, known_from, known_of, known_in, variant_named};

use crate::algebraic::{Algebraic, Variant};
use crate::form::{
    CaseForm, FieldForm, Known, Piece, TypeForm, TypeWords, VariantForm, VariantWords, Word,
};
use sk_base::{List, Name, at};
use sk_parser_exprs::token::copy;
use sk_types_names::{Listed, Named};
use std::alloc::{AllocError, Global};

impl Named for Word {
    ghost name_of = { λ word. word.name };

    fn name(&self) -> &Name {
        &self.name
    }
}

impl Named for Known {
    ghost name_of = { λ known. known.name };

    fn name(&self) -> &Name {
        &self.name
    }
}

/// A copy of a word.
pub(crate) fn copy_word(alloc: Global, word: &Word) -> Result<Word, AllocError>
    ensures { IfOk result (λ copy. copy ≡ word.now) }
{
    let name = copy(alloc, &word.name)?;
    let span = word.span;
    Ok(Word { name, span })
}

// The names of fields.
fn field_words(alloc: Global, fields: &[FieldForm]) -> Result<List<Word>, AllocError>
    ensures { IfOk result (λ words. words ≡ map (λ f. f.word) fields.now) }
{
    let mut out = List::new(alloc);
    for field in fields {
        out.push(copy_word(alloc, &field.word)?)?;
    }
    Ok(out)
}

// A variant by its words.
fn variant_words(alloc: Global, variant: &VariantForm) -> Result<VariantWords, AllocError>
    ensures { IfOk result (λ words. words ≡ variant_words variant.now) }
{
    let word = copy_word(alloc, &variant.word)?;
    let fields = field_words(alloc, variant.fields.as_slice())?;
    Ok(VariantWords { word, fields })
}

// Variants by their words.
fn variants_words(alloc: Global, variants: &[VariantForm]) -> Result<List<VariantWords>, AllocError>
    ensures { IfOk result (λ words. words ≡ map variant_words variants.now) }
{
    let mut out = List::new(alloc);
    for variant in variants {
        out.push(variant_words(alloc, variant)?)?;
    }
    Ok(out)
}

// A type by its words.
fn type_words(alloc: Global, form: &TypeForm) -> Result<TypeWords, AllocError>
    ensures { IfOk result (λ words. words ≡ type_words form.now) }
{
    let word = copy_word(alloc, &form.word)?;
    let variants = variants_words(alloc, form.variants.as_slice())?;
    Ok(TypeWords { word, variants })
}

// The words behind `case`.
fn case_words(alloc: Global, cases: &[CaseForm]) -> Result<List<Word>, AllocError>
    ensures { IfOk result (λ words. words ≡ map (λ c. (out-CaseForm c).head.word) cases.now) }
{
    let mut out = List::new(alloc);
    for case in cases {
        out.push(copy_word(alloc, &case.head.word)?)?;
    }
    Ok(out)
}

/// Lists the types and the switches of pieces.
#[cycle(listing)]
pub(crate) fn list_pieces(
    alloc: Global,
    types: &mut List<TypeWords>,
    switches: &mut List<List<Word>>,
    pieces: &[Piece],
) -> Result<(), AllocError>
    ensures types { OnOk result (types.new ≡ types.old ++ types_in pieces.now) }
    ensures switches { OnOk result (switches.new ≡ switches.old ++ switches_in pieces.now) }
{
    for piece in pieces {
        list_piece(alloc, types, switches, piece)?;
    }
    Ok(())
}

// Lists the types and the switches of a piece.
#[cycle(listing)]
fn list_piece(
    alloc: Global,
    types: &mut List<TypeWords>,
    switches: &mut List<List<Word>>,
    piece: &Piece,
) -> Result<(), AllocError>
    ensures types { OnOk result (types.new ≡ types.old ++ types_of_piece piece.now) }
    ensures switches { OnOk result (switches.new ≡ switches.old ++ switches_of_piece piece.now) }
{
    match piece {
        Piece::Type(form) => {
            types.push(type_words(alloc, form)?)?;
            Ok(())
        }
        Piece::Switch { head: _, cases } => {
            switches.push(case_words(alloc, cases.as_slice())?)?;
            list_cases(alloc, types, switches, cases.as_slice())?;
            Ok(())
        }
        Piece::Member { .. } | Piece::Behind { .. } | Piece::Plain(_) => Ok(()),
    }
}

// Lists the types and the switches in the blocks of cases.
#[cycle(listing)]
fn list_cases(
    alloc: Global,
    types: &mut List<TypeWords>,
    switches: &mut List<List<Word>>,
    cases: &[CaseForm],
) -> Result<(), AllocError>
    ensures types { OnOk result (types.new ≡ types.old ++ each (map types_of_case cases.now)) }
    ensures switches { OnOk result (switches.new ≡ switches.old ++ each (map (λ c. (switches_of_case c).1) cases.now)) }
{
    for case in cases {
        list_pieces(alloc, types, switches, case.body.as_slice())?;
    }
    Ok(())
}

// The names of words.
fn names(alloc: Global, words: &[Word]) -> Result<List<Name>, AllocError>
    ensures { IfOk result (λ names. names ≡ map (λ w. w.name) words.now) }
{
    let mut out = List::new(alloc);
    for word in words {
        out.push(copy(alloc, &word.name)?)?;
    }
    Ok(out)
}

// A variant of a type, of this number.
fn known_variant(
    alloc: Global,
    number: usize,
    ty: &Name,
    variant: &VariantWords,
) -> Result<Known, AllocError>
    ensures { IfOk result (λ known. known ≡ record { name = variant.now.word.name; ty = ty.now; number = number; fields = map (λ w. w.name) variant.now.fields }) }
{
    let name = copy(alloc, &variant.word.name)?;
    let ty = copy(alloc, ty)?;
    let fields = names(alloc, variant.fields.as_slice())?;
    Ok(Known {
        name,
        ty,
        number,
        fields,
    })
}

// Appends the variants of a type.
#[tactic(auto, unfolding(crate::specs::Words::known_from))]
fn push_known(
    alloc: Global,
    out: &mut Listed<Known>,
    ty: &Name,
    variants: &[VariantWords],
) -> Result<(), AllocError>
    ensures { OnOk result (out.new ≡ out.old ++ known_from 0 ty.now variants.now) }
{
    for (i, variant) in variants.iter().enumerate() {
        out.push(known_variant(alloc, i, ty, variant)?)?;
    }
    Ok(())
}

/// The variants of types, by their names.
pub(crate) fn known_in(alloc: Global, types: &[TypeWords]) -> Result<Listed<Known>, AllocError>
    ensures { IfOk result (λ known. known ≡ known_in types.now) }
{
    let mut out = Listed::new(alloc);
    for ty in types {
        push_known(alloc, &mut out, &ty.word.name, ty.variants.as_slice())?;
    }
    Ok(out)
}

/// The variant of this name.
#[tactic(auto, unfolding(crate::specs::Words::variant_named))]
pub(crate) fn variant_named<'a>(known: &'a Listed<Known>, name: &Name) -> Option<&'a Known>
    ensures { option_map (λ k. k.now) result ≡ variant_named known.now name.now }
{
    match known.place(name) {
        None => None,
        Some(place) => at(known.as_slice(), place),
    }
}

// A variant as a lowered text names it.
fn variant_of(alloc: Global, variant: &VariantWords) -> Result<Variant, AllocError>
    ensures { IfOk result (λ it. it ≡ variant_of variant.now) }
{
    let name = copy(alloc, &variant.word.name)?;
    let fields = names(alloc, variant.fields.as_slice())?;
    Ok(Variant { name, fields })
}

// Variants as a lowered text names them.
fn variants_of(alloc: Global, variants: &[VariantWords]) -> Result<List<Variant>, AllocError>
    ensures { IfOk result (λ it. it ≡ map variant_of variants.now) }
{
    let mut out = List::new(alloc);
    for variant in variants {
        out.push(variant_of(alloc, variant)?)?;
    }
    Ok(out)
}

// A type as a lowered text names it.
fn algebraic_of(alloc: Global, ty: &TypeWords) -> Result<Algebraic, AllocError>
    ensures { IfOk result (λ it. it ≡ algebraic_of ty.now) }
{
    let name = copy(alloc, &ty.word.name)?;
    let variants = variants_of(alloc, ty.variants.as_slice())?;
    Ok(Algebraic { name, variants })
}

/// The types that a lowered text names.
pub(crate) fn algebraics(alloc: Global, types: &[TypeWords]) -> Result<List<Algebraic>, AllocError>
    ensures { IfOk result (λ it. it ≡ map algebraic_of types.now) }
{
    let mut out = List::new(alloc);
    for ty in types {
        out.push(algebraic_of(alloc, ty)?)?;
    }
    Ok(out)
}
