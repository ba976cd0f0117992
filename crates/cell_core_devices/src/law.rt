//! The laws about the contents with which reads agree.

ghost use Rattle.std.specs.Prelude.{◌≡◌, ℕ, List};
ghost use Rattle.cell_core_devices.specs.Supposed.{After};
ghost use Rattle.cell_core_devices.specs.declared.source.Asked.{Asked};
ghost use Rattle.cell_core_devices.specs.SourceLaw.{AgreementMeansContentWasRead};

use crate::source::{ReadSource, Source};
use std::io::Read;

/// What the reads of a file returned decides which contents they agree with.
pub fn reads_decide_agreeing_contents<R: Read + Drop>()
    ensures { (s : (R × List ℕ) × Asked)
        → ⟦<ReadSource<R> as Source>⟧.supposed s ≡ After s.0.1 s.1 }
{}

/// Reads agree with a content if and only if it starts with the bytes that they returned, and ends as they reported, if
/// they reported an end. What is to come are the bytes after those returned.
pub fn agreement_means_content_was_read()
    ensures { AgreementMeansContentWasRead }
{}
