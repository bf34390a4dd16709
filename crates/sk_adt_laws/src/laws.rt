//! What holds of plain forms.
ghost use Rattle.sk_adt_laws.specs.Laws.{PlainTextsStay, NoWordIsLeft, PlainFormsAreSmall, TypesBecomeStructs};
ghost use Rattle.sk_adt_laws.specs.Examples.{LoweringExamples};

/// A text without the words `adt`, `switch` and `case` is its own plain form.
pub fn plain_texts_stay()
    ensures { PlainTextsStay }
{}

/// None of the words `adt`, `switch` and `case` is left in a plain form.
pub fn no_word_is_left()
    ensures { NoWordIsLeft }
{}

/// A plain form has at most 15 times as many tokens as the text.
pub fn plain_forms_are_small()
    ensures { PlainFormsAreSmall }
{}

/// Each algebraic type is a struct in the plain form, whose first field is the tag, an integer.
pub fn types_become_structs()
    ensures { TypesBecomeStructs }
{}

/// Small texts with algebraic types: their plain forms, or why they have none.
pub fn lowering_examples()
    ensures { LoweringExamples }
{}
