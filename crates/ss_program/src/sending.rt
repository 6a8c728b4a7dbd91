// Hands text to a sink.
ghost use Rattle.ss_program.specs.Sent.{Puts};

use ss_outside::{Failed, Sink};

/// Hands a text to the sink as one piece, and again what the sink didn't take. At an error the sink got less than all of
/// the text.
pub fn send<K: Sink>(sink: &mut K, text: &[u8]) -> Result<(), Failed>
    ensures { Puts text.now (K.held sink.old) (K.faults sink.old) (K.held sink.new) (K.faults sink.new) result }
{
    let mut sent = 0;
    while sent < text.len() {
        sent += sink.put(&text[sent..])?;
    }
    Ok(())
}
