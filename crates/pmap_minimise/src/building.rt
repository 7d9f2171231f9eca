//! Builds the compact certificate of a map's minimal pair from the map's stretches, from the leaves up.
ghost use Rattle.std.specs.Prelude.{◌≡◌, ◌+◌, ◌-◌, ◌^◌, ◌<◌, ◌++◌, ◌∷◌, [], IfOk};
ghost use Rattle.std.specs.Prelude.{OnOk, if◌then◌else◌, length, MatchOption, Some};
ghost use Rattle.std.specs.Option.{option_or};
ghost use Rattle.pmap_cert.specs.FormatReading.{ChainLine};
ghost use Rattle.pmap_cert.specs.Node.{claiming};
ghost use Rattle.pmap_cert.specs.Paths.{path_to};
ghost use Rattle.pmap_model.specs.MapModel.{MapModel};
ghost use Rattle.pmap_stretches.specs.Windows.{IsWindow, window_number};
ghost use Rattle.pmap_minimise.specs.Built.{AddsExact, AddsInner, AreHalves, IsBuilt, IsBuiltIn, last_claim};
ghost use Rattle.pmap_minimise.specs.Numbers.{has_number, numbers_of};
ghost use Rattle.pmap_cert.specs.Opened.{cost_above};
ghost use Rattle.pmap_minimise.specs.Spines.{AreCountable, HasNoLongSpine, IsCounted, IsMapOn, own_label};

use crate::sets::exact_claim;
use crate::spines::{own_label, spine_end};
use pmap_cert::{Claim, Node, Nodes, Path, Root, has_label};
use pmap_model::LabelId;
use pmap_stretches::{Stretches, Window};
use std::alloc::{AllocError, Global};
use std::slice;

// Adds the line of an inner node over two nodes that each claim a cost and one label. The node claims their exact
// claim.
#[inline(always)]
fn push_over_labels(
    nodes: &mut Nodes,
    low: (u32, LabelId),
    high: (u32, LabelId),
) -> Result<(), AllocError>
    requires { low.0 + high.0 + 1 < 2 ^ 32 }
    ensures { OnOk result (AddsExact (claiming low.0 (low.1.0 ∷ []))
        (claiming high.0 (high.1.0 ∷ [])) nodes.old nodes.new) }
{
    let (sum, x, y) = (low.0 + high.0, low.1, high.1);
    if x.0 == y.0 {
        let set = &[x];
        return nodes.push(Node::Inner(Claim { cost: sum, set }));
    }
    if x.0 < y.0 {
        let set = &[x, y];
        return nodes.push(Node::Inner(Claim { cost: sum + 1, set }));
    }
    let set = &[y, x];
    nodes.push(Node::Inner(Claim { cost: sum + 1, set }))
}

/// Adds the line of an inner node over two nodes, of which the lower one has the last line and the upper one the line
/// `upper`. The node claims their exact claim.
pub fn push_inner(alloc: Global, nodes: &mut Nodes, upper: usize) -> Result<(), AllocError>
    requires { AreHalves nodes.old upper }
    ensures { OnOk result (AddsInner upper nodes.old nodes.new) }
{
    let lower = nodes.len() - 1;
    let (low, high) = (nodes.claim(lower), nodes.claim(upper));
    // An optimisation: most halves claim one label each.
    if let ([x], [y]) = (low.set, high.set) {
        let (low, high) = ((low.cost, *x), (high.cost, *y));
        return push_over_labels(nodes, low, high);
    }
    let (cost, set) = exact_claim(alloc, low, high)?;
    let set = set.as_slice();
    nodes.push(Node::Inner(Claim { cost, set }))
}

// Returns the cost of a chain, by the set and the cost of its end.
fn chain_cost(set: &[LabelId], cost: u32, side: LabelId) -> u32
    requires { cost + 1 < 2 ^ 32 }
    ensures { result ≡ (if has_number (numbers_of set.now) side.0 then cost else cost + 1) }
{
    if has_label(set, side) { cost } else { cost + 1 }
}

// Adds the line of a chain over the node of the last line. The chain claims the side label alone.
fn push_chain(nodes: &mut Nodes, path: Path, side: LabelId) -> Result<(), AllocError>
    requires some { 0 < length nodes.old }
    requires few { (last_claim nodes.old).cost + 1 < 2 ^ 32 }
    ensures { OnOk result (nodes.new ≡ nodes.old
        ++ ChainLine (cost_above side.0 (last_claim nodes.old)) (path_to path.value path.count) side.0 (side.0 ∷ [])
        ∷ []) }
{
    let end = nodes.claim(nodes.len() - 1);
    let claim = Claim {
        cost: chain_cost(end.set, end.cost, side),
        set: slice::from_ref(&side),
    };
    nodes.push(Node::Chain {
        claim,
        path: &path,
        side,
    })
}

// Adds the lines of a block, in reverse order.
#[cycle(window)]
#[inline(always)]
fn push_window(
    alloc: Global,
    nodes: &mut Nodes,
    stretches: &Stretches,
    window: &Window,
) -> Result<(), AllocError>
    requires { IsCounted stretches.now window.now }
    ensures { OnOk result (IsBuilt stretches.now window.now nodes.old nodes.new) }
{
    if window.from < window.to {
        return push_divided(alloc, nodes, stretches, window);
    }
    let Some(id) = stretches.label(window.from) else {
        unreachable!()
    };
    nodes.push(Node::Leaf(id))
}

// Adds the lines of a block with addresses of two stretches or more, in reverse order.
#[cycle(window)]
fn push_divided(
    alloc: Global,
    nodes: &mut Nodes,
    stretches: &Stretches,
    window: &Window,
) -> Result<(), AllocError>
    requires counted { IsCounted stretches.now window.now }
    requires divided { window.now.from < window.now.to }
    ensures { OnOk result (IsBuilt stretches.now window.now nodes.old nodes.new) }
{
    let (low, high) = window.halves(stretches);
    if let Some(side) = side_of(stretches, &low, &high) {
        let end = spine_end(stretches, window, side);
        let count = end.len - window.len;
        if count >= 2 {
            push_window(alloc, nodes, stretches, &end)?;
            let value = number_of(stretches, &end);
            return push_chain(nodes, Path { value, count }, side);
        }
    }
    push_window(alloc, nodes, stretches, &high)?;
    let upper = nodes.len() - 1;
    push_window(alloc, nodes, stretches, &low)?;
    push_inner(alloc, nodes, upper)
}

// Returns the number of a block among the blocks of its size. The block is not the whole address space.
fn number_of(stretches: &Stretches, window: &Window) -> u128
    requires window { IsWindow stretches.now window.now }
    requires some { 0 < window.now.len }
    ensures { result ≡ window_number stretches.now window.now }
{
    window.first >> (stretches.version().width() - window.len)
}

// Returns the side label of the spine from the block with these halves: the first label that a half has alone. Returns
// `None` if no half has one, or if both do, so that the spine has at most one step.
#[inline(always)]
fn side_of(stretches: &Stretches, low: &Window, high: &Window) -> Option<LabelId>
    requires low { IsWindow stretches.now low.now }
    requires high { IsWindow stretches.now high.now }
    ensures { MatchOption result (HasNoLongSpine stretches.now low.now high.now)
        (λ id. option_or (own_label stretches.now low.now) (own_label stretches.now high.now) ≡ Some id.0) }
{
    if low.from == low.to && high.from == high.to {
        return None;
    }
    own_label(stretches, low).or_else(|| own_label(stretches, high))
}

/// Builds a compact certificate from stretches.
pub fn built_of(alloc: Global, stretches: Stretches) -> Result<Root, AllocError>
    requires { AreCountable stretches }
    ensures { IfOk result (λ root. (m : MapModel) → IsMapOn stretches m → IsBuiltIn m root) }
{
    let count = stretches.len();
    // Usual maps have fewer nodes, so that none is copied. Memory that isn't written to isn't used.
    let mut nodes = Nodes::with_capacity(alloc, 2 * count + count / 8, count)?;
    push_window(alloc, &mut nodes, &stretches, &Window::whole(&stretches))?;
    Ok(Root::of_reversed(nodes))
}
