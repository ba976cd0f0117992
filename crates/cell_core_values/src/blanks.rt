//! Finds blanks, and removes them from the ends of texts.

ghost use Rattle.std.specs.Prelude.{◌≡◌, ◌≤◌, length};
ghost use Rattle.std.specs.List.{before_first, after_first};
ghost use Rattle.cell_core_values.specs.Blanks.{is_blank, without_leading_blanks, without_trailing_blanks, trimmed_text};

/// Returns whether a byte is a space, a tab or a carriage return. Does not allocate.
pub fn is_blank(b: u8) -> bool
    ensures { result ≡ is_blank b }
{
    b == b' ' || b == b'\t' || b == b'\r'
}

/// Returns the text without leading blanks. Does not allocate.
pub fn without_leading_blanks<'a>(text: &'a [u8]) -> &'a [u8]
    ensures text { result.now ≡ without_leading_blanks text.now }
    ensures shorter { length result.now ≤ length text.now }
{
    let mut rest = text;
    while let [b' ' | b'\t' | b'\r', others @ ..] = rest {
        rest = others;
    }
    rest
}

fn without_trailing_blanks<'a>(text: &'a [u8]) -> &'a [u8]
    ensures { result.now ≡ without_trailing_blanks text.now }
{
    let mut end = text.len();
    while end > 0 {
        if !is_blank(text[end - 1]) {
            return &text[..end];
        }
        end -= 1;
    }
    &text[..0]
}

/// Returns the text without leading and trailing blanks. Does not allocate.
pub fn trimmed_text<'a>(text: &'a [u8]) -> &'a [u8]
    ensures { result.now ≡ trimmed_text text.now }
{
    without_trailing_blanks(without_leading_blanks(text))
}

/// Splits a text at its first blank. If there is none, the second part is empty. Does not allocate.
pub fn split_at_first_blank<'a>(text: &'a [u8]) -> (&'a [u8], &'a [u8])
    ensures before { result.0.now ≡ before_first is_blank text.now }
    ensures after { result.1.now ≡ after_first is_blank text.now }
{
    for (i, b) in text.iter().enumerate() {
        if is_blank(*b) {
            return (&text[..i], &text[i + 1..]);
        }
    }
    (text, &text[text.len()..])
}
