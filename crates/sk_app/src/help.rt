//! What the lines `--help` and `--version` write.

ghost use Rattle.std.specs.Prelude.{◌≡◌, ◌++◌, IfOk};
ghost use Rattle.sk_app.specs.Help.{usage_text, statuses_text, help_text, version_text};

use std::alloc::{AllocError, Global};

/// How the program is called, and its options.
fn usage() -> &'static [u8]
    ensures { result.now ≡ usage_text }
{
    b"Completes sketches: programs with holes, and harnesses that say what must hold.

sketch synth [OPTION].. < SKETCH               writes the completed sketch, or the line //@ none
sketch exec [OPTION].. NAME VALUE.. < PROGRAM  writes what the function NAME gives for the values
sketch trace [OPTION].. NAME VALUE.. < SKETCH  writes each step of that run, in a filling
sketch lower [OPTION].. < TEXT                 writes the plain sketch of a text with algebraic types
sketch prune [OPTION].. < PROGRAM              writes the program without what no run can reach
sketch all [OPTION].. K < SKETCH               writes the hole values of up to K completions
sketch why [OPTION].. < SKETCH                 writes inputs that leave no completion, or //@ met
sketch check [OPTION].. < INPUT                judges what synth --cert wrote, behind the sketch and a line //%%
sketch self N                                  completes a sketch of its own, and writes a summary
sketch --help                                  writes this help
sketch --version                               writes the version

An option is --name N or --name=N, and stands once.

  --bnd-cbits        1 to 16, else 5          bits of a hole ??
  --bnd-inbits       1 to 16, else 5          bits of an integer input
  --bnd-unroll-amnt  0 to 64, else 8          turns of a loop
  --bnd-inline-amnt  1 to 16, else 5          active calls of one function
  --int-bits         6 to 32, else 16         bits of int
  --rounds           0 to 1000000, else 0     inputs that speak against choices; 0 is no limit
  --conflicts        0 to 1000000000, else 0  clauses learnt in one call; 0 is no limit
  --holes            N,N.., else none         what trace puts in for the sites, as in a line //@ holes
  --cert             no value                 puts a certificate behind what synth writes
"
}

/// The statuses with which it ends, and who gets lines for people.
fn statuses() -> &'static [u8]
    ensures { result.now ≡ statuses_text }
{
    b"
It ends with one of these, and from 10 on says more on standard error.

   0  completed, or accepted, or the run is done, or what lower, prune, all or why found is written
   1  no completion meets the harnesses and references on every input
   2  a budget is spent, and no completion is known
   3  a budget is spent; the completion may not cost least
   4  the run failed
   5  the run was skipped
   6  check rejects the certificate
   7  why found a completion
  10  the words are no command line
  11  the text has no tokens, or reads as no program
  12  the text breaks a rule of types
  13  its program is too large
  14  standard input failed
  15  standard output failed
  16  the sketch has more than 1048576 bytes, or the input of check more than 67108864
  17  out of memory
  18  the function cannot be run, or what prune reads is open
  19  behind the sketch stands no certificate
  21  algebraic types of the text have no plain form
  22  the numbers of --holes do not fill the sketch
  23  a variable is used otherwise than as its variant

SKETCH_EXPLAIN=1 writes more lines for people to standard error behind the message, =0 none;
else they are written where standard error is a terminal.
SKETCH_PROGRESS=1 shows there that a search goes on, =0 does not, else a terminal shows it;
SKETCH_STATS=1 writes there at the end what was counted.
"
}

/// The help.
pub fn help(alloc: Global) -> Result<Vec<u8>, AllocError>
    ensures { IfOk result (λ text. text.items ≡ help_text) }
{
    let mut text = Vec::from_slice(alloc, usage())?;
    text.extend_from_slice(statuses())?;
    Ok(text)
}

/// The version.
pub fn version() -> &'static [u8]
    ensures { result.now ≡ version_text }
{
    b"sketch 0.1.0\n"
}
