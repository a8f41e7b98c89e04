// Writes a whole text to a sink that may take it in parts.
ghost use Rattle.std.specs.Prelude.{OnOk, OnErr};
ghost use Rattle.std.specs.Io.KnownBytes.{Appends};
ghost use Rattle.gw_outside.specs.Causes.{HasCause};
ghost use Rattle.gw_outside.specs.Writing.{AppendsPrefix};

use crate::{Sink, WriteFault};

/// Writes the text whole, in as many writes as the sink takes. After a fault a front of it was written, perhaps none.
pub fn write_all<K: Sink>(sink: &mut K, text: &[u8]) -> Result<(), WriteFault>
    ensures ok { OnOk result (Appends (K.held sink.old) (K.held sink.new) text.now) }
    ensures err { OnErr result (AppendsPrefix (K.held sink.old) (K.held sink.new) text.now) }
    ensures cause { HasCause (K.count sink.old) (K.count sink.new) result }
{
    let mut at = 0;
    while at < text.len() {
        match sink.write(&text[at..]) {
            Ok(count) => at += count,
            Err(fault) => return Err(fault),
        }
    }
    Ok(())
}
