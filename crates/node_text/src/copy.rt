//! Copies of texts into buffers that may be too small.
ghost use Rattle.std.specs.Prelude.{◌≡◌};
ghost use Rattle.node_text.specs.Answers.{overwrite_prefix};

/// Copies a text, or as much of it as fits, to the front of a buffer. The bytes after the copy stay as they were.
pub fn copy_prefix(text: &[u8], out: &mut [u8])
    ensures { out.new ≡ overwrite_prefix text.now out.old }
{
    let len = text.len().min(out.len());
    out[..len].copy_from_slice(&text[..len]);
}
