//! The forms that a few tokens on both sides of a place tell.
use crate::cut::Cut;
use crate::forms::LeftOut;
use crate::seen::Seen;

// What stands before a place and from it on where the text has a form.
#[derive(Clone, Copy)]
struct Row {
    before: &'static [Seen],
    from: &'static [Seen],
    form: LeftOut,
}

static ROWS: [Row; 43] = [
    Row {
        before: &[Seen::Start, Seen::Spelt(b"break")],
        from: &[Seen::Spelt(b";")],
        form: LeftOut::Break,
    },
    Row {
        before: &[Seen::Start, Seen::Spelt(b"continue")],
        from: &[Seen::Spelt(b";")],
        form: LeftOut::Continue,
    },
    Row {
        before: &[Seen::Start, Seen::Spelt(b"do")],
        from: &[],
        form: LeftOut::Do,
    },
    Row {
        before: &[Seen::Start, Seen::Spelt(b"do"), Seen::Word],
        from: &[],
        form: LeftOut::Do,
    },
    Row {
        before: &[Seen::Start, Seen::Spelt(b"loop")],
        from: &[Seen::Spelt(b"{")],
        form: LeftOut::Loop,
    },
    Row {
        before: &[Seen::Spelt(b"include")],
        from: &[Seen::Quoted],
        form: LeftOut::Include,
    },
    Row {
        before: &[Seen::Spelt(b"package"), Seen::Word],
        from: &[Seen::Spelt(b"{")],
        form: LeftOut::Package,
    },
    Row {
        before: &[Seen::Spelt(b"package"), Seen::Word],
        from: &[Seen::Spelt(b";")],
        form: LeftOut::Package,
    },
    Row {
        before: &[Seen::Spelt(b"const")],
        from: &[Seen::TypeKey],
        form: LeftOut::Const,
    },
    Row {
        before: &[Seen::Spelt(b"unsigned")],
        from: &[Seen::TypeKey],
        form: LeftOut::Modifier,
    },
    Row {
        before: &[Seen::Spelt(b"signed")],
        from: &[Seen::TypeKey],
        form: LeftOut::Modifier,
    },
    Row {
        before: &[Seen::Spelt(b"long")],
        from: &[Seen::TypeKey],
        form: LeftOut::Modifier,
    },
    Row {
        before: &[Seen::Spelt(b"short")],
        from: &[Seen::TypeKey],
        form: LeftOut::Modifier,
    },
    Row {
        before: &[Seen::Spelt(b"static")],
        from: &[Seen::TypeKey],
        form: LeftOut::Storage,
    },
    Row {
        before: &[Seen::Spelt(b"extern")],
        from: &[Seen::TypeKey],
        form: LeftOut::Storage,
    },
    Row {
        before: &[Seen::Spelt(b"inline")],
        from: &[Seen::TypeKey],
        form: LeftOut::Storage,
    },
    Row {
        before: &[Seen::Spelt(b"-")],
        from: &[Seen::Spelt(b">"), Seen::Word],
        form: LeftOut::Arrow,
    },
    Row {
        before: &[],
        from: &[Seen::Spelt(b"-"), Seen::Spelt(b">"), Seen::Word],
        form: LeftOut::Arrow,
    },
    Row {
        before: &[],
        from: &[Seen::Updating, Seen::Spelt(b"=")],
        form: LeftOut::Update,
    },
    Row {
        before: &[Seen::Spelt(b"??"), Seen::Spelt(b"("), Seen::Number],
        from: &[Seen::Spelt(b",")],
        form: LeftOut::HoleRange,
    },
    Row {
        before: &[Seen::Spelt(b"new"), Seen::Word],
        from: &[],
        form: LeftOut::BareNew,
    },
    Row {
        before: &[Seen::TypeKey, Seen::Word],
        from: &[Seen::Spelt(b"[")],
        form: LeftOut::LateLength,
    },
    Row {
        before: &[Seen::Spelt(b"]"), Seen::Word],
        from: &[Seen::Spelt(b"[")],
        form: LeftOut::LateLength,
    },
    Row {
        before: &[Seen::Word, Seen::Word],
        from: &[Seen::Spelt(b"[")],
        form: LeftOut::LateLength,
    },
    Row {
        before: &[Seen::TypeKey],
        from: &[Seen::Spelt(b"*")],
        form: LeftOut::Pointer,
    },
    Row {
        before: &[Seen::Spelt(b"(")],
        from: &[Seen::Spelt(b"&"), Seen::Word],
        form: LeftOut::Pointer,
    },
    Row {
        before: &[Seen::Spelt(b",")],
        from: &[Seen::Spelt(b"&"), Seen::Word],
        form: LeftOut::Pointer,
    },
    Row {
        before: &[Seen::Spelt(b"=")],
        from: &[Seen::Spelt(b"&"), Seen::Word],
        form: LeftOut::Pointer,
    },
    Row {
        before: &[Seen::Start],
        from: &[Seen::Spelt(b"*"), Seen::Word],
        form: LeftOut::Pointer,
    },
    Row {
        before: &[],
        from: &[Seen::Spelt(b"struct"), Seen::Word, Seen::Word],
        form: LeftOut::StructWord,
    },
    Row {
        before: &[],
        from: &[Seen::Spelt(b"struct"), Seen::Word, Seen::Spelt(b"*")],
        form: LeftOut::StructWord,
    },
    Row {
        before: &[Seen::Spelt(b"struct"), Seen::Word],
        from: &[Seen::Word],
        form: LeftOut::StructWord,
    },
    Row {
        before: &[Seen::Spelt(b"struct"), Seen::Word],
        from: &[Seen::Spelt(b"*")],
        form: LeftOut::StructWord,
    },
    Row {
        before: &[Seen::Spelt(b"(")],
        from: &[Seen::Spelt(b"void"), Seen::Spelt(b")")],
        form: LeftOut::NoParameters,
    },
    Row {
        before: &[Seen::Spelt(b"typedef")],
        from: &[],
        form: LeftOut::OtherItem,
    },
    Row {
        before: &[Seen::Spelt(b"enum"), Seen::Word],
        from: &[Seen::Spelt(b"{")],
        form: LeftOut::OtherItem,
    },
    Row {
        before: &[Seen::Spelt(b"union"), Seen::Word],
        from: &[Seen::Spelt(b"{")],
        form: LeftOut::OtherItem,
    },
    Row {
        before: &[Seen::Spelt(b"for"), Seen::Spelt(b"(")],
        from: &[Seen::TypeKey],
        form: LeftOut::PartOfFor,
    },
    Row {
        before: &[Seen::Spelt(b"for"), Seen::Spelt(b"(")],
        from: &[Seen::Spelt(b";")],
        form: LeftOut::PartOfFor,
    },
    Row {
        before: &[],
        from: &[Seen::Spelt(b"and")],
        form: LeftOut::Conjunction,
    },
    Row {
        before: &[],
        from: &[Seen::Spelt(b"or")],
        form: LeftOut::Conjunction,
    },
    Row {
        before: &[Seen::Number, Seen::Spelt(b".")],
        from: &[],
        form: LeftOut::Point,
    },
    Row {
        before: &[],
        from: &[
            Seen::Spelt(b"switch"),
            Seen::Spelt(b"("),
            Seen::Word,
            Seen::Spelt(b")"),
            Seen::Spelt(b"{"),
            Seen::Spelt(b"case"),
            Seen::Number,
        ],
        form: LeftOut::NumberCase,
    },
];

fn rows() -> &'static [Row] {
    &ROWS
}

/// The first form of the table that stands at a place.
pub fn form_in_table(cut: Cut<'_>) -> Option<LeftOut> {
    for row in rows() {
        if cut.is_between(row.before, row.from) {
            return Some(row.form);
        }
    }
    None
}
