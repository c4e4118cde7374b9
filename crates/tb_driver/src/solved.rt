// What a search found.
use tb_case_records::Verdict;
use tb_field::Field;
use tb_flux::Flux;
use tb_terms::Interval;

/// What a search found of a case on a grid.
#[derive(Debug, Drop)]
pub struct Solved {
    /// The field that proves the upper end.
    pub field: Field,
    /// The balanced flux that proves the lower end.
    pub flux: Flux,
    /// The two ends in fW/K.
    pub interval: Interval,
    /// How the search ended.
    pub verdict: Verdict,
}
