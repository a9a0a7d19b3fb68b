//! Words with spaces between.
ghost use Rattle.std.specs.Prelude.{◌≡◌, ◌∷◌, ◌++◌, map, string_bytes, OnOk};
ghost use Rattle.std.specs.List.{join_with_byte};
ghost use Rattle.order_texts.specs.Lines.{space};
ghost use Rattle.order_texts.specs.Texts.{behind_spaces};

use std::alloc::AllocError;

/// Writes words, each behind a space.
pub fn push_each(text: &mut String, words: &[&str]) -> Result<(), AllocError>
    ensures { OnOk result (string_bytes text.new ≡ string_bytes text.old
        ++ behind_spaces (map (λ word. word.now) words.now)) }
{
    for word in words {
        text.push_str(" ")?;
        text.push_str(word)?;
    }
    Ok(())
}

/// Writes a word, and others behind it.
pub fn push_words(text: &mut String, first: &str, others: &[&str]) -> Result<(), AllocError>
    ensures { OnOk result (string_bytes text.new ≡ string_bytes text.old
        ++ join_with_byte space (first.now ∷ map (λ word. word.now) others.now)) }
{
    text.push_str(first)?;
    push_each(text, others)
}
