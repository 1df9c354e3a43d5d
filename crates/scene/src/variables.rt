// The variables of primitives, which the patches of a request share.
ghost use Rattle.std.specs.Prelude.{◌≡◌, ◌<◌, ℕ, All, IfOk, IfSome, Some, List as Items, length, map, slice_get};
ghost use Rattle.std.specs.BTreeMap.{get_by_text};
ghost use Rattle.fixed_math.specs.Names.{last_place};
ghost use Rattle.scene.specs.Scene.{VariableValue};
ghost use Rattle.scene.specs.Seats.{names_of, names_in, AreDistinct, IsThere, variables_of};
ghost use Rattle.scene.specs.declared.params.Param.{Param};

use crate::params::Param;
use crate::seat::Seat;
use crate::shared::Shared;
use crate::uses::param_copy;
use crate::variable::Variable;
use fixed_math::{List, NoMemory};
use std::alloc::Global;
use std::collections::BTreeMap;
use std::marker::Model;

/// The variables of a primitive's request, no two of one name. Contracts see the list.
#[derive(Drop)]
pub struct RequestVariables {
    params: List<Param>,
    places: BTreeMap<String, usize>,
}

impl Model for RequestVariables {
    ghost Value = { Items Param };

    ghost view = { λ r. r.params };

    ghost invariant = { λ r. ((name : Items ℕ) → get_by_text r.places name ≡ last_place name (names_of r.params)) × AreDistinct (names_of r.params) };
}

// The places of parameters by their names.
fn places_of(alloc: Global, params: &[Param]) -> Result<BTreeMap<String, usize>, NoMemory>
    ensures { IfOk result (λ places. (name : Items ℕ) → get_by_text places name ≡ last_place name (names_of params.now)) }
{
    let mut places = BTreeMap::new(alloc);
    for k in 0..params.len() {
        let name = String::from_str(alloc, params[k].name.as_str())?;
        places.insert(name, k)?;
    }
    Ok(places)
}

// Parameters in memory of their own.
fn copies_of(alloc: Global, params: &[&Param]) -> Result<List<Param>, NoMemory>
    ensures { IfOk result (λ p. p ≡ map (λ q. q.now) params.now) }
{
    let mut copies = Vec::new(alloc);
    for param in params {
        copies.push(param_copy(alloc, param)?)?;
    }
    Ok(List(copies))
}

impl RequestVariables {
    /// The variables that these parameters of a request are.
    pub fn new(alloc: Global, params: &[&Param]) -> Result<RequestVariables, NoMemory>
        requires { AreDistinct (names_of (map (λ p. p.now) params.now)) }
        ensures { IfOk result (λ r. r ≡ map (λ p. p.now) params.now) }
    {
        let params = copies_of(alloc, params)?;
        let places = places_of(alloc, params.as_slice())?;
        Ok(RequestVariables { params, places })
    }

    /// The variables in order.
    pub fn as_slice(&self) -> &[Param]
        ensures { result.now ≡ self.now }
    {
        self.params.as_slice()
    }

    // The place of the one of that name.
    fn place_of(&self, name: &str) -> Option<usize>
        ensures { result ≡ last_place name.now (names_of self.now) }
    {
        self.places.get(name).copied()
    }

    // Tells the prover alone that no two have one name.
    fn names_known(&self)
        ensures { AreDistinct (names_of self.now) }
    {
        let _params = &self.params;
    }
}

/// The variables that a primitive has of its request. Contracts see the list, each with the values that the primitive has of it.
///
/// A mesh may have thousands of patches and a constant value of megabytes, or as many variables. So the request's variables stand in
/// one place of memory for all its patches, of which each has its seat, and the values of a patch are read where they are asked for.
#[derive(Drop)]
pub struct PrimitiveVariables {
    request: Shared<RequestVariables>,
    seat: Seat,
}

impl Model for PrimitiveVariables {
    ghost Value = { Items VariableValue };

    ghost view = { λ v. variables_of v.seat v.request };

    ghost invariant = { λ v. All (IsThere v.seat) v.request };
}

impl PrimitiveVariables {
    /// Those of the patch at that seat, or want of memory.
    pub fn new(
        request: &Shared<RequestVariables>,
        seat: Seat,
    ) -> Result<PrimitiveVariables, NoMemory>
        requires { All (IsThere seat) request.now }
        ensures { IfOk result (λ v. v ≡ variables_of seat request.now) }
    {
        Ok(PrimitiveVariables {
            request: request.shared()?,
            seat,
        })
    }

    /// How many variables there are.
    pub fn len(&self) -> usize
        ensures { result ≡ length self.now }
    {
        self.request.get().as_slice().len()
    }

    /// Variable `k`.
    pub fn at(&self, k: usize) -> Variable<'_>
        requires { k < length self.now }
        ensures { slice_get self.now k ≡ Some result }
    {
        Variable::new(&self.request.get().as_slice()[k], &self.seat)
    }

    /// The place of the variable of that name.
    pub fn place_of(&self, name: &str) -> Option<usize>
        ensures value { result ≡ last_place name.now (names_in self.now) }
        ensures there { IfSome result (λ k. k < length self.now) }
    {
        self.request.get().place_of(name)
    }

    /// Tells the prover alone that no two variables have one name.
    pub fn names_known(&self)
        ensures { AreDistinct (names_in self.now) }
    {
        self.request.get().names_known()
    }
}
