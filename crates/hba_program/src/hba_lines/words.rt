//! Words of a line, which one blank parts.

ghost use Rattle.std.specs.Prelude.{◌≡◌, option_map};
ghost use Rattle.hba_program.specs.Words.{front_word, behind_word};

/// The bytes before the first blank, and those behind it, where there is one.
pub(crate) fn cut(text: &[u8]) -> (&[u8], Option<&[u8]>)
    ensures word { result.0.now ≡ front_word text.now }
    ensures rest { option_map (λ rest. rest.now) result.1 ≡ behind_word text.now }
{
    for i in 0..text.len() {
        if text[i] == b' ' {
            return (&text[..i], Some(&text[i + 1..]));
        }
    }
    (text, None)
}
