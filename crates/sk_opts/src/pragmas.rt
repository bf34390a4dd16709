//! What the pragmas of a text set.
ghost use Rattle.std.specs.Prelude.{◌≡◌, ◌≤◌, ◌∷◌, ℕ, List, Some, None, length, codes};
ghost use Rattle.std.specs.List.{prefix_len, flat_map};
ghost use Rattle.sk_tree.specs.Shapes.{is_blank};
ghost use Rattle.sk_opts.specs.BoundsOf.{blank_words, words_settings, item_settings, pragma_settings};
ghost use Rattle.sk_opts.specs.Steps.{settings_from, is_unblank, set_by, set_after};
ghost use Rattle.sk_opts.specs.CommandLine.{set_of};
ghost use Rattle.sk_opts.specs.Ranges.{LiesIn, IsInRanges};

use crate::line::Set;
use crate::setting::{Setting, setting_among, value_in};
use sk_tree::{Item, Tree};

const OF_PRAGMAS: [Setting; 4] = [
    Setting::HoleBits,
    Setting::InputBits,
    Setting::Turns,
    Setting::Calls,
];

/// What was set, and the option of the last word, where that is one.
#[derive(Debug, Drop, Clone, Copy)]
pub struct Pragmas {
    pub set: Set,
    pub before: Option<Setting>,
}

#[tactic(auto, unfolding(sk_tree::specs::Shapes::is_blank))]
fn is_blank(b: u8) -> bool
    ensures { result ≡ is_blank b }
{
    b == b' ' || b == b'\t' || b == b'\n' || b == 12 || b == b'\r'
}

fn unblank_len(text: &[u8]) -> usize
    ensures within { result ≤ length text.now }
    ensures run { result ≡ prefix_len is_unblank text.now }
{
    text.iter().take_while(|b| !is_blank(**b)).count()
}

fn set_by(set: Set, setting: Setting, value: u32) -> Set
    ensures value { result ≡ set_by set setting (Some value) }
    ensures ranges { IsInRanges set → LiesIn setting (Some value) → IsInRanges result }
{
    match setting {
        Setting::HoleBits => Set {
            cbits: Some(value),
            ..set
        },
        Setting::InputBits => Set {
            inbits: Some(value),
            ..set
        },
        Setting::Turns => Set {
            unroll: Some(value),
            ..set
        },
        Setting::Calls => Set {
            inline_amnt: Some(value),
            ..set
        },
        Setting::IntBits => Set {
            int_bits: Some(value),
            ..set
        },
        Setting::Rounds => set,
        Setting::Conflicts => set,
        Setting::Certificate => set,
        Setting::Holes => set,
    }
}

// The next word of a pragma: the number of the word before, or a word of its own.
fn read_word(read: Pragmas, word: &[u8]) -> Pragmas
    ensures value { (more : List (List ℕ)) → set_after read.set (settings_from read.before (word.now ∷ more)) ≡ set_after result.set (settings_from result.before more) }
    ensures ranges { IsInRanges read.set → IsInRanges result.set }
{
    match read.before {
        None => Pragmas {
            set: read.set,
            before: setting_among(&OF_PRAGMAS, word),
        },
        Some(setting) => match value_in(setting, word) {
            None => Pragmas {
                set: read.set,
                before: setting_among(&OF_PRAGMAS, word),
            },
            Some(value) => Pragmas {
                set: set_by(read.set, setting, value),
                before: None,
            },
        },
    }
}

// The words of a pragma, one after the other.
fn read_text(set: Set, text: &[u8]) -> Set
    ensures value { result ≡ set_after set (words_settings (blank_words text.now)) }
    ensures ranges { IsInRanges set → IsInRanges result }
{
    let mut read = Pragmas { set, before: None };
    let mut rest = text;
    while let [b, after @ ..] = rest {
        if is_blank(*b) {
            rest = after;
        } else {
            let (word, more) = rest.split_at(unblank_len(rest));
            read = read_word(read, word);
            rest = more;
        }
    }
    read.set
}

#[tactic(auto, unfolding(crate::specs::Steps::set_after))]
fn read_item(set: Set, item: &Item) -> Set
    ensures value { result ≡ set_after set (item_settings item.now) }
    ensures ranges { IsInRanges set → IsInRanges result }
{
    match item {
        Item::Pragma { word, text } => {
            if word.as_bytes() == b"options".as_slice() {
                read_text(set, text.as_bytes())
            } else {
                set
            }
        }
        Item::Struct { .. } => set,
        Item::Const { .. } => set,
        Item::Fun(_) => set,
    }
}

fn read_items(items: &[Item]) -> Set
    ensures value { result ≡ set_of (flat_map item_settings items.now) }
    ensures ranges { IsInRanges result }
{
    let mut set = Set {
        cbits: None,
        inbits: None,
        unroll: None,
        inline_amnt: None,
        int_bits: None,
    };
    for item in items {
        set = read_item(set, item);
    }
    set
}

/// What the pragmas of a text set: of each bound the last number.
pub fn pragma_set(tree: &Tree) -> Set
    ensures value { result ≡ set_of (pragma_settings tree.now) }
    ensures ranges { IsInRanges result }
{
    read_items(tree.items.as_slice())
}
