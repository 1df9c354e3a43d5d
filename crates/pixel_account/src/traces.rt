// Fragments with what they are of, in order of depth.
ghost use Rattle.std.specs.Prelude.{◌≡◌, ◌≤◌, ℕ, [], All, OnOk, IfSome, IfNone, length, List};
ghost use Rattle.scene.specs.Scene.{FrameValue};
ghost use Rattle.shader_binding.specs.Sets.{AcceptedValue};
ghost use Rattle.hider.specs.declared.fragment.Fragment.{Fragment};
ghost use Rattle.hider.specs.declared.sample.Sample.{Sample};
ghost use Rattle.hider.specs.Composite.{is_opaque};
ghost use Rattle.hider.specs.Kept.{keep};
ghost use Rattle.pixel_account.specs.declared.traces.Trace.{Trace};
ghost use Rattle.pixel_account.specs.Traces.{fragments_in, AreWhole, IsTrace, KeepsAt};

use fixed_math::{NoMemory, Num};
use hider::{Fragment, Quad};
use pixel_record::GridCell;
use std::alloc::Global;
use std::marker::Model;

/// A fragment, the cell that it is of, and what the camera sees of that at the sample's time.
#[derive(Clone, Copy)]
pub(crate) struct Trace {
    pub(crate) fragment: Fragment,
    pub(crate) cell: GridCell,
    pub(crate) seen: Quad,
}

/// The fragments of a sample that can show: in order of depth, to the first opaque one.
#[derive(Drop)]
pub(crate) struct Traces {
    list: Vec<Trace>,
}

impl Model for Traces {
    ghost Value = { List Trace };

    ghost view = { λ t. t.list.items };

    ghost invariant = { λ t. AreWhole t.list.items };
}

/// The depth of a trace.
fn depth_of(trace: &Trace) -> Num
    ensures { result ≡ trace.now.fragment.depth }
{
    trace.fragment.depth
}

/// Whether nothing passes through it.
fn is_opaque(trace: &Trace) -> bool
    ensures { result ≡ is_opaque trace.now.fragment }
{
    trace.fragment.is_opaque()
}

/// The place of a depth among fragments in order of depth, behind those of equal depth: none where that is behind an opaque one.
fn place_of(traces: &[Trace], depth: Num) -> Option<usize>
    requires { AreWhole traces.now }
    ensures inside { IfSome result (λ p. p ≤ length traces.now) }
    ensures place { IfSome result (λ p. (f : Fragment) → f.depth ≡ depth → KeepsAt f (fragments_in traces.now) p) }
    ensures hidden { IfNone result ((f : Fragment) → f.depth ≡ depth → keep f (fragments_in traces.now) ≡ fragments_in traces.now) }
{
    for k in 0..traces.len() {
        let trace = &traces[k];
        if depth.raw() < depth_of(trace).raw() {
            return Some(k);
        }
        if is_opaque(trace) {
            return None;
        }
    }
    Some(traces.len())
}

impl Traces {
    /// No fragment.
    pub(crate) fn new(alloc: Global) -> Traces
        ensures { result ≡ [] }
    {
        Traces {
            list: Vec::new(alloc),
        }
    }

    /// The fragments in order.
    pub(crate) fn as_slice(&self) -> &[Trace]
        ensures { result.now ≡ self.now }
    {
        self.list.as_slice()
    }

    /// Puts a fragment in by depth, behind those of equal depth; what then stands behind an opaque one goes.
    pub(crate) fn put(&mut self, trace: Trace) -> Result<(), NoMemory>
        ensures kept { OnOk result (fragments_in self.new ≡ keep trace.fragment (fragments_in self.old)) }
        ensures each { (a : AcceptedValue) (f : FrameValue) (s : Sample) → IsTrace a f s trace → All (IsTrace a f s) self.old → All (IsTrace a f s) self.new }
    {
        let opaque = is_opaque(&trace);
        let Some(place) = place_of(self.list.as_slice(), depth_of(&trace)) else {
            return Ok(());
        };
        self.list.insert(place, trace)?;
        if opaque {
            self.list.truncate(place + 1);
        }
        Ok(())
    }
}
