//! Printed runs, as `cat` prints them: FORMATS.md, "Printed texts".
#![tactic(auto, unfolding(crate::specs::Addresses::opened))]

ghost use Rattle.pmap_stretches.specs.Runs.{AreRuns, HasOneRun, HasOneLabel};
ghost use Rattle.pmap_stretches.specs.RunsText.{runs_text};
ghost use Rattle.prefix_keys.specs.declared.version.Version.TheVariants.{V4, V6};
ghost use Rattle.std.specs.Prelude.{◌≡◌, ◌∷◌, [], codes, None, Some, nat_lt, if◌then◌else◌};

/// FORMATS.md, "Maps and lists" under "Troubleshooting", has the first.
pub fn runs_are_a_table()
    ensures of_the_page { runs_text V4
        (record { low = 0x0000; high = 0x09ff_ffff; label = Some (codes "UNKNOWN") }
        ∷ record { low = 0x0a00_0000; high = 0x0a00_0000; label = Some (codes "- 10.0.0.255 DE") }
        ∷ record { low = 0x0a00_0001; high = 0xffff_ffff; label = Some (codes "UNKNOWN") } ∷ [])
        ≡ codes "low|high|label\n0.0.0.0|9.255.255.255|UNKNOWN\n10.0.0.0|10.0.0.0|- 10.0.0.255 DE\n10.0.0.1|255.255.255.255|UNKNOWN\n" }
    ensures without_a_label { runs_text V4 (record { low = 0x0000; high = 0xffff_ffff; label = None } ∷ [])
        ≡ codes "low|high|label\n0.0.0.0|255.255.255.255|\n" }
    ensures ipv6 { runs_text V6
        (record { low = 0x0000; high = 0x2001_0db7_ffff_ffff_ffff_ffff_ffff_ffff; label = Some (codes "A") }
        ∷ record {
          low = 0x2001_0db8_0000_0000_0000_0000_0000_0000;
          high = 0xffff_ffff_ffff_ffff_ffff_ffff_ffff_ffff;
          label = None;
        }
        ∷ [])
        ≡ codes "low|high|label\n::|2001:db7:ffff:ffff:ffff:ffff:ffff:ffff|A\n2001:db8::|ffff:ffff:ffff:ffff:ffff:ffff:ffff:ffff|\n" }
{}

/// The addresses 0 to 3, of which the first two have a label.
pub fn runs_divide_the_addresses()
    ensures two_runs { AreRuns (λ a. if nat_lt a 2 then Some (codes "A") else None) 0 4
        (record { low = 0; high = 1; label = Some (codes "A") } ∷ record { low = 2; high = 3; label = None } ∷ []) }
    ensures one_run_has_the_last_address { HasOneRun (λ a. if nat_lt a 2 then Some (codes "A") else None)
        (record { low = 0; high = 1; label = Some (codes "A") } ∷ record { low = 2; high = 3; label = None } ∷ []) 3 }
    ensures one_run_has_the_next_address { HasOneRun (λ a. if nat_lt a 2 then Some (codes "A") else None)
        (record { low = 0; high = 1; label = Some (codes "A") } ∷ record { low = 2; high = 3; label = None } ∷ []) 2 }
    ensures not_from_the_first { AreRuns (λ a. if nat_lt a 2 then Some (codes "A") else None) 0 4
        (record { low = 1; high = 1; label = Some (codes "A") } ∷ record { low = 2; high = 3; label = None } ∷ []) → ⊥ }
    ensures not_to_the_last { AreRuns (λ a. if nat_lt a 2 then Some (codes "A") else None) 0 5
        (record { low = 0; high = 1; label = Some (codes "A") } ∷ record { low = 2; high = 3; label = None } ∷ []) → ⊥ }
    ensures not_beyond_the_last { AreRuns (λ a. if nat_lt a 2 then Some (codes "A") else None) 0 3
        (record { low = 0; high = 1; label = Some (codes "A") } ∷ record { low = 2; high = 3; label = None } ∷ []) → ⊥ }
    ensures not_all_between { AreRuns (λ a. if nat_lt a 2 then Some (codes "A") else None) 0 4
        (record { low = 0; high = 1; label = Some (codes "A") } ∷ record { low = 3; high = 3; label = None } ∷ []) → ⊥ }
    ensures two_runs_of_one_label { AreRuns (λ a. if nat_lt a 2 then Some (codes "A") else None) 0 4
        (record { low = 0; high = 0; label = Some (codes "A") } ∷ record { low = 1; high = 1; label = Some (codes "A") }
        ∷ record { low = 2; high = 3; label = None } ∷ []) → ⊥ }
    ensures two_labels_in_a_run { AreRuns (λ a. if nat_lt a 2 then Some (codes "A") else None) 0 4
        (record { low = 0; high = 3; label = Some (codes "A") } ∷ []) → ⊥ }
    ensures another_label { AreRuns (λ a. if nat_lt a 2 then Some (codes "A") else None) 0 2
        (record { low = 0; high = 1; label = None } ∷ []) → ⊥ }
    ensures two_runs_have_the_address { HasOneRun (λ a. if nat_lt a 2 then Some (codes "A") else None)
        (record { low = 0; high = 1; label = Some (codes "A") } ∷ record { low = 1; high = 3; label = None } ∷ []) 1
        → ⊥ }
    ensures no_run_has_the_address { HasOneRun (λ a. if nat_lt a 2 then Some (codes "A") else None)
        (record { low = 0; high = 0; label = Some (codes "A") } ∷ record { low = 2; high = 3; label = None } ∷ []) 1
        → ⊥ }
    ensures a_run_of_another_label { HasOneRun (λ a. if nat_lt a 2 then Some (codes "A") else None)
        (record { low = 0; high = 1; label = None } ∷ record { low = 2; high = 3; label = None } ∷ []) 1 → ⊥ }
    ensures the_last_two_of_one_label { AreRuns (λ a. if nat_lt a 2 then Some (codes "A") else None) 0 4
        ((record { low = 0; high = 1; label = Some (codes "A") }) ∷ (record { low = 2; high = 2; label = None })
        ∷ (record { low = 3; high = 3; label = None }) ∷ []) → ⊥ }
{}

/// The addresses 0 and 1 have another label than those from 2 on.
pub fn a_run_has_one_label()
    ensures of_one_address { HasOneLabel (λ a. if nat_lt a 2 then None else Some (codes "A"))
        (record { low = 1; high = 1; label = None }) }
    ensures no_address { HasOneLabel (λ a. if nat_lt a 2 then None else Some (codes "A"))
        (record { low = 1; high = 0; label = None }) → ⊥ }
    ensures the_first_has_another { HasOneLabel (λ a. if nat_lt a 2 then Some (codes "A") else None)
        (record { low = 1; high = 2; label = None }) → ⊥ }
    ensures the_last_has_another { HasOneLabel (λ a. if nat_lt a 2 then None else Some (codes "A"))
        (record { low = 1; high = 2; label = None }) → ⊥ }
{}
