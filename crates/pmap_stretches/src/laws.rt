//! Laws about stretches and runs.

ghost use Rattle.std.specs.Option.{option_map_or};
ghost use Rattle.std.specs.Prelude.{◌≡◌, ◌≢◌, ◌+◌, ◌<◌, ◌≤◌, ◌^◌, ℕ, List, Option, Some};
ghost use Rattle.std.specs.Prelude.{None, length, nat_le, slice_index_or, if◌then◌else◌};
ghost use Rattle.prefix_keys.specs.Block.{first_of, last_of, width_of};
ghost use Rattle.prefix_keys.specs.declared.version.Version.{Version};
ghost use Rattle.pmap_model.specs.ListModel.{IsEquivalent, ListModel, list_label};
ghost use Rattle.pmap_model.specs.MapModel.{Label, MapModel, Mapping, map_label, settled_label};
ghost use Rattle.pmap_stretches.specs.Runs.{AreRuns, HasOneRun, Run};
ghost use Rattle.pmap_stretches.specs.RunsText.{IsRunsText, Text};
ghost use Rattle.pmap_stretches.specs.Stretches.{HaveAddresses, IsStretch};

/// A block is settled if and only if one stretch contains it. So it is enough to look at the stretch of the block's
/// first address: if it also has the block's last address, it gives the block its label, and otherwise the block isn't
/// settled.
pub fn block_is_settled_in_one_stretch()
    ensures { (m : MapModel) (n q first last : ℕ) (top : Option Mapping) → HaveAddresses m.mappings →
        IsStretch m first last top → first ≤ first_of (width_of m.version) n q →
        first_of (width_of m.version) n q ≤ last → last_of (width_of m.version) n q < 2 ^ width_of m.version →
        settled_label m n q ≡ (if nat_le (last_of (width_of m.version) n q) last
        then Some (option_map_or (λ (p : Mapping). p.label) top m.fallback) else None) }
{}

/// The text of the runs of a labelling is unique, and labellings that agree on each address have the same text. So a
/// list that labels each address as a map does has the map's text.
pub fn labelling_has_one_runs_text()
    ensures one { (v : Version) (f : ℕ → Option Label) (text other : Text) →
        IsRunsText v f text → IsRunsText v f other → text ≡ other }
    ensures alike { (v : Version) (f g : ℕ → Option Label) (text : Text) →
        ((a : ℕ) → a < 2 ^ width_of v → f a ≡ g a) → IsRunsText v f text → IsRunsText v g text }
    ensures equivalent { (l : ListModel) (m : MapModel) (text other : Text) → IsEquivalent l m →
        IsRunsText l.version (list_label l) text →
        IsRunsText m.version (λ a. Some (map_label m a)) other → text ≡ other }
{}

/// The addresses of a version have exactly one list of runs, whatever their labels are. It depends on these labels
/// alone.
pub fn labelling_has_its_runs()
    ensures exist { (v : Version) (f : ℕ → Option Label) → (runs : List Run) × AreRuns f 0 (2 ^ width_of v) runs }
    ensures one { (v : Version) (f : ℕ → Option Label) (runs other : List Run) →
        AreRuns f 0 (2 ^ width_of v) runs → AreRuns f 0 (2 ^ width_of v) other → runs ≡ other }
    ensures alike { (v : Version) (f g : ℕ → Option Label) (runs : List Run) →
        ((a : ℕ) → a < 2 ^ width_of v → f a ≡ g a) → AreRuns f 0 (2 ^ width_of v) runs
        → AreRuns g 0 (2 ^ width_of v) runs }
{}

/// Each address is in exactly one run, which has its label. The runs ascend, each begins right after the previous one,
/// and their labels differ.
pub fn runs_cover_each_address_once()
    ensures once { (v : Version) (f : ℕ → Option Label) (runs : List Run) → AreRuns f 0 (2 ^ width_of v) runs →
        (a : ℕ) → a < 2 ^ width_of v → HasOneRun f runs a }
    ensures ascend { (v : Version) (f : ℕ → Option Label) (runs : List Run) → AreRuns f 0 (2 ^ width_of v) runs →
        (i : ℕ) (d : Run) → i + 1 < length runs
        → (slice_index_or runs (i + 1) d).low ≡ (slice_index_or runs i d).high + 1 }
    ensures differ { (v : Version) (f : ℕ → Option Label) (runs : List Run) → AreRuns f 0 (2 ^ width_of v) runs →
        (i : ℕ) (d : Run) → i + 1 < length runs
        → (slice_index_or runs (i + 1) d).label ≢ (slice_index_or runs i d).label }
{}
