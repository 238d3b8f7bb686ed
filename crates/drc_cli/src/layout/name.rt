//! The name of a structure, as a record holds it.

ghost use Rattle.std.specs.Prelude.{◌↔◌, IsTrue};
ghost use Rattle.drc_cli.specs.Layout.{IsPadded};

/// Is the text, without its trailing NUL bytes, this name?
pub fn is_padded(text: &[u8], name: &[u8]) -> bool
    ensures { IsTrue result ↔ IsPadded name.now text.now }
{
    if text.len() < name.len() || name.last() == Some(&0) {
        return false;
    }
    let (first, padding) = text.split_at(name.len());
    first == name && padding.iter().all(|byte| *byte == 0)
}
