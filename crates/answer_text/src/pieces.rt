//! Pieces that are put one after another.
ghost use Rattle.std.specs.Prelude.{◌≡◌};
ghost use Rattle.std.specs.List.{flat_map};
ghost use Rattle.run_model.specs.Answers.{line_text};
ghost use Rattle.tn_io.specs.OutText.{Puts};

use tn_io::{Failed, Lines, Out, Sink};

/// Puts pieces, one after another.
pub(crate) fn put_pieces<K: Sink>(out: &mut Out<'_, K>, pieces: &[&[u8]]) -> Result<(), Failed>
    ensures same_sink { out.new.sink.ghost_name ≡ out.old.sink.ghost_name }
    ensures put { Puts K.written K.faults out.old out.new result (flat_map (λ p. p.now) pieces.now) }
{
    for piece in pieces {
        out.put(piece)?;
    }
    Ok(())
}

/// Puts a line and its end.
fn put_line<K: Sink>(out: &mut Out<'_, K>, line: &str) -> Result<(), Failed>
    ensures same_sink { out.new.sink.ghost_name ≡ out.old.sink.ghost_name }
    ensures put { Puts K.written K.faults out.old out.new result (line_text line.now) }
{
    out.put(line.as_bytes())?;
    out.put_byte(b'\n')
}

/// Puts lines, each with its end.
pub fn put_lines<K: Sink>(lines: &Lines, out: &mut Out<'_, K>) -> Result<(), Failed>
    ensures same_sink { out.new.sink.ghost_name ≡ out.old.sink.ghost_name }
    ensures put { Puts K.written K.faults out.old out.new result (flat_map line_text lines.now) }
{
    for i in 0..lines.len() {
        put_line(out, lines.at(i).as_str())?;
    }
    Ok(())
}
