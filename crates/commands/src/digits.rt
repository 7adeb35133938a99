// Bytes that are written as pairs of hexadecimal digits.
ghost use Rattle.std.specs.Prelude.{◌≡◌, true, IfOk, IfErr, OnErr, is_some, vec_items};
ghost use Rattle.std.specs.Char.{is_ascii_hexdigit};
ghost use Rattle.std.specs.List.{list_all};
ghost use Rattle.std.specs.Option.{option_map};
ghost use Rattle.session.specs.declared.fault.Fault.TheVariants.{Memory};
ghost use Rattle.commands.specs.Hex.{hex_bytes};

use hex::FromHexError;
use session::Fault;
use std::alloc::Global;

// Whether the text holds digits alone.
fn are_digits(text: &[u8]) -> bool
    ensures { result ≡ list_all is_ascii_hexdigit text.now }
{
    text.iter().all(u8::is_ascii_hexdigit)
}

// The bytes that the text writes; none where it is no row of pairs of digits, which is seen before any memory is asked for.
pub(crate) fn unhex(heap: Global, text: &[u8]) -> Result<Option<Vec<u8>>, Fault>
    ensures value { IfOk result (λ o. option_map vec_items o ≡ hex_bytes text.now) }
    ensures err { IfErr result (λ e. e ≡ Memory) }
    ensures digits { OnErr result (is_some (hex_bytes text.now) ≡ true) }
{
    // the library asks for memory before it looks at the digits
    if !are_digits(text) {
        return Ok(None);
    }
    match hex::decode(heap, text) {
        Ok(bytes) => Ok(Some(bytes)),
        // of the library's errors one is want of memory, and the others say that these are no pairs of digits
        Err(e) => match e {
            FromHexError::OutOfMemory => Err(Fault::Memory),
            _ => Ok(None),
        },
    }
}
