ghost use Rattle.library_tables.specs.Counting.{SearchesReadFew};

/// What a search reads at most, as a change and as a job with its change. The call does nothing.
pub fn searches_read_few()
    ensures { SearchesReadFew }
{}
