//! The words of the command line.

ghost use Rattle.std.specs.Prelude.{◌≡◌};
ghost use Rattle.std.specs.Option.{option_copied};
ghost use Rattle.plan_chart.specs.Words as spec;

use plan_core::Bytes;

/// Whether a word is the name of a file: not empty, and no option.
fn is_file(word: &[u8]) -> bool
    ensures { result ≡ spec.is_file word.now }
{
    match word {
        [] => false,
        [b'-', _, ..] => false,
        _ => true,
    }
}

fn is_dashes(word: &[u8]) -> bool
    ensures { result ≡ spec.is_dashes word.now }
{
    let dashes: &[u8] = b"--";
    word == dashes
}

/// The name of the file that the words ask for: one word, or one behind `--`. Before that a word that begins with `-` and is longer than
/// one byte is an option, and there are none.
pub fn asked(words: &[Bytes]) -> Option<&[u8]>
    ensures { option_copied result ≡ spec.asked words.now }
{
    match words {
        [name] => {
            if is_file(name.as_slice()) {
                Some(name.as_slice())
            } else {
                None
            }
        }
        [dashes, name] => {
            if is_dashes(dashes.as_slice()) && !name.is_empty() {
                Some(name.as_slice())
            } else {
                None
            }
        }
        _ => None,
    }
}
