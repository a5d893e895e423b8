//! Laws of files. A law is the contract of a function that does nothing; a caller has it after the call.
ghost use Rattle.std.specs.Prelude.{◌≡◌, ℕ, List, false, length};
ghost use Rattle.std.specs.List.{list_any};
ghost use Rattle.guest_elf.specs.File.{is_bad_segment, loadable_of, loads_of};
ghost use Rattle.memory_map.specs.Usual.{usual};
ghost use Rattle.memory_map.specs.declared.regions.Regions.{Regions};

/// Where heap and stack have the usual regions, each program header that is to be loaded is loaded whole.
#[tactic(auto, using(crate::proofs::Splitting::usual_whole))]
pub fn usual_whole()
    ensures { (file : List ℕ) → loads_of usual file ≡ loadable_of file }
{}

/// Where no program header that is to be loaded is bad, no piece of one is.
#[tactic(auto, using(crate::proofs::Splitting::loads_good))]
pub fn pieces_stay_good()
    ensures { (regions : Regions) (file : List ℕ) → list_any (is_bad_segment (length file)) (loadable_of file) ≡ false
        → list_any (is_bad_segment (length file)) (loads_of regions file) ≡ false }
{}
