ghost use Rattle.std.specs.Prelude.{◌≡◌, ◌≤◌, IfOk, IfErr, IfSome, take, vec_len};
ghost use Rattle.input.specs.Texts.{TakesAtMost, TakesSome, ReadsOn, Stops};

use std::alloc::{AllocError, Global};
use std::io::Read;
use thiserror::Error;

/// Why an input could not be read.
#[derive(Clone, Copy, Debug, PartialEq, Eq, Error)]
pub enum InputFault {
    /// The reader gave an error.
    #[error("cannot be read")]
    Unreadable,
    /// Memory ran out.
    #[error("out of memory")]
    NoMemory,
}

impl From<AllocError> for InputFault {
    ghost use Rattle.input.specs.declared.reading.InputFault.TheVariants.{NoMemory};

    ghost from_gives = { λ _ fault. fault ≡ NoMemory };

    fn from(_error: AllocError) -> InputFault {
        InputFault::NoMemory
    }
}

/// Reads the first `most` bytes of an input, or all of a shorter input. A caller that allows n bytes asks for n + 1:
/// n + 1 bytes show that the input is too long.
///
/// Makes at most `most` reads. The first error of the reader, even an interruption by a signal, ends the call with
/// [`InputFault::Unreadable`]. Memory runs out only for bytes that the reader gave. After a fault, the bytes that
/// were read are lost.
pub fn read_at_most<R: Read>(
    alloc: Global,
    reader: &mut R,
    most: usize,
) -> Result<Vec<u8>, InputFault>
    ensures text { IfOk result (λ text. IfSome (R.remaining reader.old) (λ input. text.items ≡ take most input)) }
    ensures length { IfOk result (λ text. vec_len text ≤ most) }
    ensures taken { TakesAtMost most (R.remaining reader.old) (R.remaining reader.new) }
    ensures memory { IfErr result (λ fault. fault ≡ InputFault.NoMemory → TakesSome (R.remaining reader.old) (R.remaining reader.new)) }
{
    let mut text = Vec::new(alloc);
    // Each read but the last gives at least a byte, so this many reads are enough.
    for _reads in 0..most {
        if text.len() == most {
            return Ok(text);
        }
        let count = match read_on(reader, &mut text, most) {
            Ok(count) => count,
            Err(fault) => return Err(fault),
        };
        if count == 0 {
            return Ok(text);
        }
    }
    Ok(text)
}

/// Makes one read, appends its bytes to the text, and returns their number.
fn read_on<R: Read>(reader: &mut R, text: &mut Vec<u8>, most: usize) -> Result<usize, InputFault>
    requires { vec_len text.old ≤ most }
    ensures reads { IfOk result (λ count. ReadsOn most (R.remaining reader.old) (R.remaining reader.new) text.old.items
        text.new.items count) }
    ensures stops { IfErr result (λ fault. Stops most (R.remaining reader.old) (R.remaining reader.new) text.old.items) }
    ensures memory { IfErr result (λ fault. fault ≡ InputFault.NoMemory → TakesSome (R.remaining reader.old) (R.remaining reader.new)) }
    ensures most { vec_len text.new ≤ most }
{
    let mut buffer = [0u8; 4096];
    let room = buffer.len().min(most - text.len());
    match reader.read(&mut buffer[..room]) {
        Ok(0) => Ok(0),
        Ok(count) => match text.extend_from_slice(&buffer[..count]) {
            Ok(()) => Ok(count),
            Err(error) => Err(InputFault::from(error)),
        },
        Err(_) => Err(InputFault::Unreadable),
    }
}
