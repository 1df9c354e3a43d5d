// The bases of bicubic patches, and the shapes of patches and meshes.
ghost use Rattle.std.specs.Prelude.{◌≡◌, ◌≤◌, ◌<◌, ◌^◌};
ghost use Rattle.rib_reader.specs.declared.req.Req.TheVariants as reqs;
ghost use Rattle.scene_parts.specs.Bases.{BasisValues, AreBases, first_bases, basis_named, bases_after, shape_with, patch_shape, mesh_shape};

use mesh_basis::{Basis, Shape};
use rib_reader::Request;
use std::marker::Model;

/// The bases along u and along v, and the steps from patch to patch, at least 1. Contracts see them as a record.
#[derive(Clone, Copy)]
pub struct Bases {
    basis_u: Basis,
    basis_v: Basis,
    step_u: u32,
    step_v: u32,
}

impl Model for Bases {
    ghost Value = { BasisValues };

    ghost view = { λ b. record { basis_u = b.basis_u; basis_v = b.basis_v; step_u = b.step_u; step_v = b.step_v } };

    ghost invariant = { λ b. AreBases (record { basis_u = b.basis_u; basis_v = b.basis_v; step_u = b.step_u; step_v = b.step_v }) };

    ghost inverse = { λ b. record { basis_u = b.basis_u; basis_v = b.basis_v; step_u = b.step_u; step_v = b.step_v } };
}

fn basis_named(name: &str) -> Basis
    ensures { result ≡ basis_named name.now }
{
    if name == "b-spline" {
        Basis::BSpline
    } else if name == "catmull-rom" {
        Basis::CatmullRom
    } else if name == "hermite" {
        Basis::Hermite
    } else if name == "power" {
        Basis::Power
    } else {
        Basis::Bezier
    }
}

impl Bases {
    /// The bases at the start.
    pub fn first() -> Bases
        ensures { result ≡ first_bases }
    {
        Bases {
            basis_u: Basis::Bezier,
            basis_v: Basis::Bezier,
            step_u: 3,
            step_v: 3,
        }
    }

    /// The bases that `Basis` sets.
    pub fn after(self, request: &Request) -> Bases
        requires { request.now.name ≡ reqs.Basis }
        ensures { result ≡ bases_after request.now.args self }
    {
        Bases {
            basis_u: basis_named(request.word(0).as_str()),
            basis_v: basis_named(request.word(2).as_str()),
            step_u: request.whole(1) as u32,
            step_v: request.whole(3) as u32,
        }
    }

    fn shape(self, bicubic: bool, nu: u32, periodic_u: bool, nv: u32, periodic_v: bool) -> Shape
        ensures value { result ≡ shape_with bicubic nu periodic_u nv periodic_v self }
        ensures step_u { 1 ≤ result.step_u }
        ensures step_v { 1 ≤ result.step_v }
        ensures few_u { result.nu < 2 ^ 32 }
        ensures few_v { result.nv < 2 ^ 32 }
    {
        Shape {
            bicubic,
            nu,
            nv,
            periodic_u,
            periodic_v,
            basis_u: self.basis_u,
            basis_v: self.basis_v,
            step_u: self.step_u,
            step_v: self.step_v,
        }
    }

    /// The shape of a patch, which is a mesh of one.
    pub fn patch_shape(self, request: &Request) -> Shape
        requires { request.now.name ≡ reqs.Patch }
        ensures value { result ≡ patch_shape request.now.args self }
        ensures step_u { 1 ≤ result.step_u }
        ensures step_v { 1 ≤ result.step_v }
        ensures few_u { result.nu < 2 ^ 32 }
        ensures few_v { result.nv < 2 ^ 32 }
    {
        if request.word(0).as_str() == "bicubic" {
            self.shape(true, 4, false, 4, false)
        } else {
            self.shape(false, 2, false, 2, false)
        }
    }

    /// The shape of a mesh.
    pub fn mesh_shape(self, request: &Request) -> Shape
        requires { request.now.name ≡ reqs.PatchMesh }
        ensures value { result ≡ mesh_shape request.now.args self }
        ensures step_u { 1 ≤ result.step_u }
        ensures step_v { 1 ≤ result.step_v }
        ensures few_u { result.nu < 2 ^ 32 }
        ensures few_v { result.nv < 2 ^ 32 }
    {
        self.shape(
            request.word(0).as_str() == "bicubic",
            request.whole(1) as u32,
            request.word(2).as_str() == "periodic",
            request.whole(3) as u32,
            request.word(4).as_str() == "periodic",
        )
    }
}
