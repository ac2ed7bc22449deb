ghost use Rattle.std.specs.Prelude.{◌≢◌};

use crate::program::cep;
use cep_outside::{Sink, SureFiles, SureSource};
use cep_session::Status;
use event_pipeline::Gauge;
use std::alloc::Global;

/// `cep` over files and an input in memory that never fail: it never tells that one of them did.
pub fn cep_in_memory<K: Sink, N: Sink, G: Gauge>(
    alloc: Global,
    words: &[String],
    files: &mut SureFiles,
    input: &mut SureSource,
    output: &mut K,
    notes: &mut N,
    gauge: &mut G,
) -> Status
    ensures input { result ≢ Status.ReadFault }
    ensures file { result ≢ Status.PatternFault }
{
    cep(alloc, words, files, input, output, notes, gauge)
}
