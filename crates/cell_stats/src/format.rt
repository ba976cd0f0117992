//! The format of printed tables.

ghost use Rattle.std.specs.Prelude.{◌≡◌};

use std::marker::Model;

/// The format of printed lines: the byte between fields, the null text, and whether labels and counts are printed
/// (r.stats manual, flags `-l` and `-c`).
#[derive(Drop)]
pub struct TableFormat<'a> {
    separator: u8,
    null_text: &'a [u8],
    labels: bool,
    counts: bool,
}

impl<'a> Model for TableFormat<'a> {
    ghost use Rattle.cell_stats.specs.TableText.{TableFormatValue};
    ghost use Rattle.cell_stats.specs.parts.PairsCode.{table_format_encoding};

    ghost Value = { TableFormatValue };

    ghost coded = { table_format_encoding };

    ghost view = { λ f. record { separator = f.separator; null_text = f.null_text.now; labels = f.labels; counts = f.counts } };
}

impl<'a> TableFormat<'a> {
    /// Returns the format with these options.
    pub fn new(separator: u8, null_text: &'a [u8], labels: bool, counts: bool) -> TableFormat<'a>
        ensures { result ≡ record {
          separator = separator;
          null_text = null_text.now;
          labels = labels;
          counts = counts;
        } }
    {
        TableFormat {
            separator,
            null_text,
            labels,
            counts,
        }
    }

    /// Returns the byte between fields.
    pub fn separator(&self) -> u8
        ensures { result ≡ self.now.separator }
    {
        self.separator
    }

    /// Returns the null text.
    pub fn null_text(&self) -> &[u8]
        ensures { result.now ≡ self.now.null_text }
    {
        self.null_text
    }

    /// Returns whether each category is followed by its label.
    pub fn labels(&self) -> bool
        ensures { result ≡ self.now.labels }
    {
        self.labels
    }

    /// Returns whether counts are printed.
    pub fn counts(&self) -> bool
        ensures { result ≡ self.now.counts }
    {
        self.counts
    }
}
