// The lights of a surface, whose codes run one at a time in one machine.
ghost use Rattle.std.specs.Prelude.{◌≡◌, ℕ, ◌<◌, All, map, length};
ghost use Rattle.light_rows.specs.Seen.{size, HasRows};
ghost use Rattle.light_rows.specs.declared.triples.Triples.{Triples as AnyTriples};
ghost use Rattle.grid_registers.specs.declared.room.Room.{Room as AnyRoom};
ghost use Rattle.grid_machine.specs.Lamps.{IsLevel, IsKept, IsOfRoom, asked_by};
ghost use Rattle.grid_machine.specs.State.{Whole};

use crate::inputs::Lights;
use crate::lamp::Lamp;
use crate::machine::Machine;
use bumpalo::Bump;
use fixed_math::NoMemory;
use grid_registers::{Frame, Room};
use light_rows::{Answers, Illumination, Sum, Triples, View, Workroom};
use number_rows::{Planes, Raw, fill};

/// A light, and what it answered when it was last asked, if it was.
#[derive(Drop)]
pub struct Lantern<'a> {
    pub lamp: Lamp<'a>,
    pub given: bool,
    pub answers: Answers<'a>,
}

/// Lights on a grid of so many places with the points at which they are asked, rows for sums over them, and a machine with room for the
/// code of each.
#[derive(Drop)]
pub struct Lamps<'a> {
    pub places: usize,
    pub room: Room,
    pub lanterns: Vec<Lantern<'a>, &'a Bump>,
    pub points: Triples<'a>,
    pub work: Workroom<'a>,
    pub machine: Machine<'a>,
    pub ghost level: { All (IsLevel places room) lanterns.items },
    pub ghost kept: { All (IsKept places points) lanterns.items },
    pub ghost long: { size points ≡ places },
    pub ghost rows: { HasRows places work },
    pub ghost whole: { Whole machine },
    pub ghost of_room: { IsOfRoom places room machine },
}

impl<'a> Lantern<'a> {
    ghost use Rattle.std.specs.Prelude.{◌≡◌, ℕ, true, false, IfOk};
    ghost use Rattle.grid_machine.specs.Lamps.{IsPlaced, AnswersAt};

    // A light that hasn't been asked, or want of memory.
    fn new(arena: &'a Bump, lamp: Lamp<'a>) -> Result<Lantern<'a>, NoMemory>
        ensures lamp { IfOk result (λ k. k.lamp ≡ lamp.entry) }
        ensures level { (c : ℕ) (r : AnyRoom) → IsPlaced c r lamp.entry → IfOk result (IsLevel c r) }
        ensures unasked { IfOk result (λ k. k.given ≡ false) }
    {
        let answers = Answers::new(arena, lamp.code.ambient, lamp.frame.places)?;
        Ok(Lantern {
            lamp,
            given: false,
            answers,
        })
    }

    // Runs its code at points.
    fn ask(&mut self, machine: &mut Machine<'a>, points: &Triples)
        requires whole { Whole machine.old }
        requires level { IsLevel machine.old.registers.frame.now.places machine.old.registers.frame.now.room self.old }
        requires points { size points.now ≡ machine.old.registers.frame.now.places }
        ensures whole { Whole machine.new }
        ensures of_room { IsOfRoom machine.old.registers.frame.now.places machine.old.registers.frame.now.room machine.new }
        ensures lamp { self.new.lamp ≡ self.old.lamp }
        ensures level { IsLevel machine.old.registers.frame.now.places machine.old.registers.frame.now.room self.new }
        ensures given { self.new.given ≡ true }
        ensures answers { AnswersAt machine.old.registers.frame.now.places points.now self.new }
    {
        let lamp = self.lamp;
        machine.take_up(lamp.frame);
        let Planes { x, y, z } = points.planes();
        machine.asked(
            lamp.code,
            lamp.registers,
            lamp.values,
            &Planes { x, y, z },
            &mut self.answers,
        );
        self.given = true;
    }
}

// The frame of the first light.
fn first_frame<'a>(lanterns: &[Lantern<'a>]) -> &'a Frame<'a>
    requires { 0 < length lanterns.now }
    ensures { (c : ℕ) (r : AnyRoom) → All (IsLevel c r) lanterns.now → (result.now.places ≡ c) × (result.now.room ≡ r) }
{
    lanterns[0].lamp.frame
}

impl<'a> Lamps<'a> {
    ghost use Rattle.std.specs.Prelude.{◌≡◌, ℕ, ◌<◌, ◌≤◌, [], ◌∷◌, ◌++◌, map, length, IfOk, OnOk};
    ghost use Rattle.grid_machine.specs.Asked.{IsLight, asked, asked_all};
    ghost use Rattle.grid_registers.specs.Rooms.{HasRoom};
    ghost use Rattle.grid_machine.specs.State.{lines_of};

    // The room that the codes of all lights take, one at a time.
    fn room_of<L: Lights>(lights: &L, places: usize) -> Room
        requires some { 0 < L.many lights.now }
        requires few { places ≤ 289 }
        ensures { (n : ℕ) → n < L.many lights.now → HasRoom (L.codes lights.now n).varying (L.codes lights.now n).uniform places result }
    {
        let mut room = Room::of_code(lights.code(0), places);
        for n in 0..lights.count() {
            room = Room::greater(room, Room::of_code(lights.code(n), places));
        }
        room
    }

    // Adds a light.
    fn add<L: Lights>(
        lanterns: &mut Vec<Lantern<'a>, &'a Bump>,
        arena: &'a Bump,
        grid: &Frame<'a>,
        lights: &'a L,
        n: usize,
        room: Room,
    ) -> Result<(), NoMemory>
        requires many { n < L.many lights.now }
        requires light { IsLight (L.codes lights.now n) (L.params lights.now n) }
        requires room { HasRoom (L.codes lights.now n).varying (L.codes lights.now n).uniform grid.now.places room }
        ensures level { OnOk result (All (IsLevel grid.now.places room) lanterns.old.items → All (IsLevel grid.now.places room) lanterns.new.items) }
        ensures kept { (p : AnyTriples) → OnOk result (All (IsKept grid.now.places p) lanterns.old.items → All (IsKept grid.now.places p) lanterns.new.items) }
        ensures asked { let l = lights.now in OnOk result (map asked_by lanterns.new.items ≡ map asked_by lanterns.old.items ++ (asked (lines_of grid.now) grid.now.places (L.places l n) (L.codes l n) (L.params l n) ∷ [])) }
    {
        let lamp = Lamp::new(
            arena,
            grid,
            lights.code(n),
            lights.values(n),
            lights.spaces(n),
            room,
        )?;
        let lantern = Lantern::new(arena, lamp)?;
        lanterns.push(lantern)?;
        Ok(())
    }

    // All lights on a grid, each with its frame.
    fn all<L: Lights>(
        arena: &'a Bump,
        grid: &Frame<'a>,
        lights: &'a L,
        room: Room,
    ) -> Result<Vec<Lantern<'a>, &'a Bump>, NoMemory>
        requires lights { (n : ℕ) → n < L.many lights.now → IsLight (L.codes lights.now n) (L.params lights.now n) }
        requires room { (n : ℕ) → n < L.many lights.now → HasRoom (L.codes lights.now n).varying (L.codes lights.now n).uniform grid.now.places room }
        ensures level { IfOk result (λ l. All (IsLevel grid.now.places room) l.items) }
        ensures kept { (p : AnyTriples) → IfOk result (λ l. All (IsKept grid.now.places p) l.items) }
        ensures lights { IfOk result (λ l. map asked_by l.items ≡ asked_all (lines_of grid.now) grid.now.places (L.many lights.now) (L.places lights.now) (L.codes lights.now) (L.params lights.now)) }
    {
        let mut lanterns = Vec::new(arena);
        for n in 0..lights.count() {
            Lamps::add(&mut lanterns, arena, grid, lights, n, room)?;
        }
        Ok(lanterns)
    }

    /// Some lights on a grid, with a machine for their codes; or want of memory.
    pub fn new<L: Lights>(
        arena: &'a Bump,
        grid: &Frame<'a>,
        lights: &'a L,
    ) -> Result<Lamps<'a>, NoMemory>
        requires some { 0 < L.many lights.now }
        requires lights { (n : ℕ) → n < L.many lights.now → IsLight (L.codes lights.now n) (L.params lights.now n) }
        ensures places { IfOk result (λ l. l.places ≡ grid.now.places) }
        ensures lights { IfOk result (λ l. map asked_by l.lanterns.items ≡ asked_all (lines_of grid.now) grid.now.places (L.many lights.now) (L.places lights.now) (L.codes lights.now) (L.params lights.now)) }
    {
        let room = Lamps::room_of(lights, grid.places);
        let lanterns = Lamps::all(arena, grid, lights, room)?;
        let machine = Machine::fresh(arena, first_frame(&lanterns))?;
        Ok(Lamps {
            places: grid.places,
            room,
            lanterns,
            points: Triples::zeros(arena, grid.places)?,
            work: Workroom::new(arena, grid.places)?,
            machine,
        })
    }
}

// No light has been asked at the points any more.
fn forget(lanterns: &mut [Lantern])
    ensures long { length lanterns.new ≡ length lanterns.old }
    ensures lamps { map asked_by lanterns.new ≡ map asked_by lanterns.old }
    ensures level { (c : ℕ) (r : AnyRoom) → All (IsLevel c r) lanterns.old → All (IsLevel c r) lanterns.new }
    ensures kept { (c : ℕ) (p : AnyTriples) → All (IsKept c p) lanterns.new }
{
    for n in 0..lanterns.len() {
        lanterns[n].given = false;
    }
}

impl<'a> Lamps<'a> {
    ghost use Rattle.std.specs.Prelude.{◌≡◌, ℕ, ◌<◌, true, false, map, get_or};
    ghost use Rattle.light_rows.specs.Seen.{at_place, unasked, HasBegun, IsSum};
    ghost use Rattle.number_rows.specs.Planes.{triple_at, triple_in, ArePlanes};
    ghost use Rattle.grid_machine.specs.Lamps.{Grows};
    ghost use Rattle.grid_machine.specs.declared.lamps.Lantern.{Lantern as AnyLantern};

    // From now on lights are asked at these points. Where they are those of before, what was answered is kept.
    fn turn(&mut self, points: &Planes)
        requires { ArePlanes self.old.places points.now }
        ensures places { self.new.places ≡ self.old.places }
        ensures lamps { map asked_by self.new.lanterns.items ≡ map asked_by self.old.lanterns.items }
        ensures points { (i : ℕ) → i < self.old.places → at_place self.new.points i ≡ triple_at points.now i }
    {
        if !self.points.are(points) {
            self.points.take(points);
            forget(&mut self.lanterns);
        }
    }

    // Runs a light's code at the points.
    fn run(&mut self, n: usize)
        requires { n < length self.old.lanterns.items }
        ensures places { self.new.places ≡ self.old.places }
        ensures points { self.new.points ≡ self.old.points }
        ensures work { self.new.work ≡ self.old.work }
        ensures lamps { map asked_by self.new.lanterns.items ≡ map asked_by self.old.lanterns.items }
        ensures lamp { (d : AnyLantern) → (get_or self.new.lanterns.items n d).lamp ≡ (get_or self.old.lanterns.items n d).lamp }
        ensures given { get_or (map (λ k. k.given) self.new.lanterns.items) n false ≡ true }
    {
        self.lanterns[n].ask(&mut self.machine, &self.points);
    }

    // The same, where it hasn't been run there.
    fn light(&mut self, n: usize)
        requires { n < length self.old.lanterns.items }
        ensures places { self.new.places ≡ self.old.places }
        ensures points { self.new.points ≡ self.old.points }
        ensures work { self.new.work ≡ self.old.work }
        ensures lamps { map asked_by self.new.lanterns.items ≡ map asked_by self.old.lanterns.items }
        ensures lamp { (d : AnyLantern) → (get_or self.new.lanterns.items n d).lamp ≡ (get_or self.old.lanterns.items n d).lamp }
        ensures given { get_or (map (λ k. k.given) self.new.lanterns.items) n false ≡ true }
    {
        if !self.lanterns[n].given {
            self.run(n);
        }
    }

    // Adds what a light gives to a sum that has begun.
    fn add_light(&mut self, n: usize, sum: &Sum, x: &mut [Raw], y: &mut [Raw], z: &mut [Raw])
        requires many { n < length self.old.lanterns.items }
        requires sum { IsSum self.old.places sum.now }
        requires begun { HasBegun self.old.places sum.now self.old.work }
        requires x { length x.old ≡ self.old.places }
        requires y { length y.old ≡ self.old.places }
        requires z { length z.old ≡ self.old.places }
        ensures places { self.new.places ≡ self.old.places }
        ensures points { self.new.points ≡ self.old.points }
        ensures lamps { map asked_by self.new.lanterns.items ≡ map asked_by self.old.lanterns.items }
        ensures begun { HasBegun self.old.places sum.now self.new.work }
        ensures x { length x.new ≡ length x.old }
        ensures y { length y.new ≡ length y.old }
        ensures z { length z.new ≡ length z.old }
        ensures each { Grows sum.now self.old.places (at_place self.old.points) (get_or (map asked_by self.old.lanterns.items) n unasked) (triple_in x.old y.old z.old) (triple_in x.new y.new z.new) }
    {
        if sum.counts(self.lanterns[n].lamp.code.ambient) {
            self.light(n);
            self.work.add(sum, &self.lanterns[n].answers, x, y, z);
        }
    }
}

impl Illumination for Lamps<'_> {
    ghost use Rattle.std.specs.Prelude.{false, map, get_or};
    ghost use Rattle.light_rows.specs.Seen.{at_place};

    ghost lighting = { λ l. record { places = l.places; lights = map asked_by l.lanterns.items } };

    ghost turned = { λ l. at_place l.points };

    ghost asked = { λ l n. get_or (map (λ k. k.given) l.lanterns.items) n false };

    fn count(&self) -> usize {
        self.lanterns.len()
    }

    fn ask(&mut self, n: usize, points: &Planes) {
        self.turn(points);
        self.light(n);
    }

    fn answers(&self, n: usize) -> View<'_> {
        self.lanterns[n].answers.view()
    }

    fn totals(&mut self, sum: &Sum, points: &Planes, x: &mut [Raw], y: &mut [Raw], z: &mut [Raw]) {
        fill(Raw::zero(), x);
        fill(Raw::zero(), y);
        fill(Raw::zero(), z);
        self.turn(points);
        self.work.begin(sum);
        for n in 0..self.lanterns.len() {
            self.add_light(n, sum, x, y, z);
        }
    }
}
