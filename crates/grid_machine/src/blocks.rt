// Runs blocks of grid code.
ghost use Rattle.std.specs.Prelude.{◌≡◌, true, ◌∷◌};
ghost use Rattle.std.specs.List.{list_all};
ghost use Rattle.sl_ast.specs.declared.kinds.LightStmt.TheVariants.{Illuminance};
ghost use Rattle.sl_ast.specs.declared.kinds.Predefined.TheVariants as names;
ghost use Rattle.grid_code.specs.Code as code;
ghost use Rattle.grid_code.specs.Code.{end, branch};
ghost use Rattle.grid_code.specs.Names.{name_at, lit_at};
ghost use Rattle.grid_code.specs.Uses.{has};
ghost use Rattle.grid_code.specs.View.{with_node, block_of};
ghost use Rattle.grid_machine.specs.State.{beside, lights_registers, HasRegister, ReadyIn, Runs, RunsTurns, Whole, Kept};
ghost use Rattle.grid_machine.specs.Writes.{RunsLit};

use crate::held::scope_of;
use crate::machine::Machine;
use grid_code::{Node, Register};
use grid_registers::Textures;
use light_rows::Illumination;
use place_rows::Mask;
use sl_ast::LightStmt;

/// Runs a block: what each node does, one after another. A loop has at most that many turns. Where no place is live, a block does nothing.
#[cycle(run)]
pub fn run_block<L: Illumination, T: Textures>(
    block: &[Node],
    m: &mut Machine,
    lights: &mut L,
    textures: &mut T,
    most: u32,
)
    requires whole { Whole m.old }
    requires ready { ReadyIn m.old (block_of block.now) }
    requires places { (L.lighting lights.old).places ≡ m.old.registers.frame.now.places }
    ensures kept { Kept m.old m.new }
    ensures same { L.lighting lights.new ≡ L.lighting lights.old }
    ensures images { T.images textures.new ≡ T.images textures.old }
    ensures masked { Runs (beside (L.lighting lights.old).lights (T.images textures.old)) most (block_of block.now) m.old m.new }
{
    if m.live.any(m.registers.frame.places) {
        for node in block {
            run_node(node, m, lights, textures, most);
        }
    }
}

#[cycle(run)]
fn run_node<L: Illumination, T: Textures>(
    node: &Node,
    m: &mut Machine,
    lights: &mut L,
    textures: &mut T,
    most: u32,
)
    requires whole { Whole m.old }
    requires ready { ReadyIn m.old (with_node node.now end) }
    requires places { (L.lighting lights.old).places ≡ m.old.registers.frame.now.places }
    ensures kept { Kept m.old m.new }
    ensures same { L.lighting lights.new ≡ L.lighting lights.old }
    ensures images { T.images textures.new ≡ T.images textures.old }
    ensures masked { Runs (beside (L.lighting lights.old).lights (T.images textures.old)) most (with_node node.now end) m.old m.new }
{
    match node {
        Node::Put { to, source } => m.put(*to, source),
        Node::Differ { to, difference, of } => m.differ(*to, *difference, *of),
        Node::Sum { to, sum, args } => m.sum(*to, *sum, args.as_slice(), lights),
        Node::Texture { to, node, args } => m.look_up(*to, *node, args.as_slice(), textures),
        Node::If {
            test,
            then,
            otherwise,
        } => run_branch(
            *test,
            then.as_slice(),
            otherwise.as_slice(),
            m,
            lights,
            textures,
            most,
        ),
        Node::Loop {
            uniform,
            ask,
            test,
            step,
            body,
        } => run_kept_loop(
            *uniform,
            ask.as_slice(),
            *test,
            step.as_slice(),
            body.as_slice(),
            m,
            lights,
            textures,
            most,
        ),
        Node::Lights { over, args, body } => {
            run_lights(
                *over,
                args.as_slice(),
                body.as_slice(),
                m,
                lights,
                textures,
                most,
            )
        }
        Node::Break => m.leave(),
        Node::Continue => m.skip(),
    }
}

/// A loop, behind which the places are live again that were before it. It isn't inlined, since the masks that it keeps would then be
/// cleared for each node of another kind too.
#[cycle(run)]
#[inline(never)]
fn run_kept_loop<L: Illumination, T: Textures>(
    uniform: bool,
    ask: &[Node],
    test: Register,
    step: &[Node],
    body: &[Node],
    m: &mut Machine,
    lights: &mut L,
    textures: &mut T,
    most: u32,
)
    requires whole { Whole m.old }
    requires ask { ReadyIn m.old (block_of ask.now) }
    requires has { HasRegister m.old test }
    requires step { ReadyIn m.old (block_of step.now) }
    requires body { ReadyIn m.old (block_of body.now) }
    requires places { (L.lighting lights.old).places ≡ m.old.registers.frame.now.places }
    ensures kept { Kept m.old m.new }
    ensures same { L.lighting lights.new ≡ L.lighting lights.old }
    ensures images { T.images textures.new ≡ T.images textures.old }
    ensures masked { Runs (beside (L.lighting lights.old).lights (T.images textures.old)) most (code.loops uniform (block_of ask.now) test (block_of step.now) (block_of body.now) end) m.old m.new }
{
    let (live, staying) = (m.live, m.staying);
    run_loop(uniform, ask, test, step, body, m, lights, textures, most);
    m.live = live;
    m.staying = staying;
}

#[cycle(run)]
fn run_branch<L: Illumination, T: Textures>(
    test: Register,
    then: &[Node],
    otherwise: &[Node],
    m: &mut Machine,
    lights: &mut L,
    textures: &mut T,
    most: u32,
)
    requires whole { Whole m.old }
    requires has { HasRegister m.old test }
    requires then { ReadyIn m.old (block_of then.now) }
    requires otherwise { ReadyIn m.old (block_of otherwise.now) }
    requires places { (L.lighting lights.old).places ≡ m.old.registers.frame.now.places }
    ensures kept { Kept m.old m.new }
    ensures same { L.lighting lights.new ≡ L.lighting lights.old }
    ensures images { T.images textures.new ≡ T.images textures.old }
    ensures masked { Runs (beside (L.lighting lights.old).lights (T.images textures.old)) most (branch test (block_of then.now) (block_of otherwise.now) end) m.old m.new }
{
    match test {
        Register::Uniform(_, _) => {
            if m.holds(test) {
                run_block(then, m, lights, textures, most);
            } else {
                run_block(otherwise, m, lights, textures, most);
            }
        }
        Register::Varying(_, _) => {
            let count = m.registers.frame.places;
            let set = m.tests(test);
            let live = m.live;
            m.live = live.and(&set, count);
            run_block(then, m, lights, textures, most);
            let after = m.live;
            m.live = live.without(&set, count);
            run_block(otherwise, m, lights, textures, most);
            m.live = after.or(&m.live, count);
        }
    }
}

#[cycle(run)]
fn run_loop<L: Illumination, T: Textures>(
    uniform: bool,
    ask: &[Node],
    test: Register,
    step: &[Node],
    body: &[Node],
    m: &mut Machine,
    lights: &mut L,
    textures: &mut T,
    most: u32,
)
    requires whole { Whole m.old }
    requires ask { ReadyIn m.old (block_of ask.now) }
    requires has { HasRegister m.old test }
    requires step { ReadyIn m.old (block_of step.now) }
    requires body { ReadyIn m.old (block_of body.now) }
    requires places { (L.lighting lights.old).places ≡ m.old.registers.frame.now.places }
    ensures kept { Kept m.old m.new }
    ensures same { L.lighting lights.new ≡ L.lighting lights.old }
    ensures images { T.images textures.new ≡ T.images textures.old }
    ensures turns { RunsTurns (beside (L.lighting lights.old).lights (T.images textures.old)) most uniform (block_of ask.now) test (block_of step.now) (block_of body.now) m.old m.new }
{
    for _turn in 0..most {
        run_block(ask, m, lights, textures, most);
        let going = m.going(uniform, test);
        if !going.any(m.registers.frame.places) {
            return;
        }
        m.begin_turn(uniform, &going);
        run_block(body, m, lights, textures, most);
        m.live = m.staying;
        run_block(step, m, lights, textures, most);
    }
    run_block(ask, m, lights, textures, most);
}

// The body of a statement over lights: of `illuminance` once for each light, of `illuminate` and `solar` where the light is lit.
#[cycle(run)]
fn run_lights<L: Illumination, T: Textures>(
    over: LightStmt,
    args: &[Register],
    body: &[Node],
    m: &mut Machine,
    lights: &mut L,
    textures: &mut T,
    most: u32,
)
    requires whole { Whole m.old }
    requires args { list_all (has m.old.registers.frame.now.varying.now m.old.registers.frame.now.uniform.now) args.now ≡ true }
    requires has { list_all (has m.old.registers.frame.now.varying.now m.old.registers.frame.now.uniform.now) (lights_registers over) ≡ true }
    requires body { ReadyIn m.old (block_of body.now) }
    requires places { (L.lighting lights.old).places ≡ m.old.registers.frame.now.places }
    ensures kept { Kept m.old m.new }
    ensures same { L.lighting lights.new ≡ L.lighting lights.old }
    ensures images { T.images textures.new ≡ T.images textures.old }
    ensures masked { Runs (beside (L.lighting lights.old).lights (T.images textures.old)) most (code.lights over args.now (block_of body.now) end) m.old m.new }
{
    if let Some((place, cone)) = args.split_first() {
        match over {
            LightStmt::Illuminance => run_seen(*place, cone, body, m, lights, textures, most),
            LightStmt::Illuminate => {
                m.aim(*place);
                let seen = m.within(cone);
                run_lit(&seen, body, m, lights, textures, most);
            }
            LightStmt::Solar => {
                m.aim_along(*place);
                run_lit(&Mask::full(), body, m, lights, textures, most);
            }
        }
    }
}

// The body once for each light, at the places that see it. Not inlined, so that what it keeps takes no room in the frames of other blocks.
#[cycle(run)]
#[inline(never)]
fn run_seen<L: Illumination, T: Textures>(
    place: Register,
    args: &[Register],
    body: &[Node],
    m: &mut Machine,
    lights: &mut L,
    textures: &mut T,
    most: u32,
)
    requires whole { Whole m.old }
    requires place { HasRegister m.old place }
    requires args { list_all (has m.old.registers.frame.now.varying.now m.old.registers.frame.now.uniform.now) args.now ≡ true }
    requires direction { HasRegister m.old (name_at names.L) }
    requires colour { HasRegister m.old (name_at names.Cl) }
    requires body { ReadyIn m.old (block_of body.now) }
    requires places { (L.lighting lights.old).places ≡ m.old.registers.frame.now.places }
    ensures kept { Kept m.old m.new }
    ensures same { L.lighting lights.new ≡ L.lighting lights.old }
    ensures images { T.images textures.new ≡ T.images textures.old }
    ensures masked { Runs (beside (L.lighting lights.old).lights (T.images textures.old)) most (code.lights Illuminance (place ∷ args.now) (block_of body.now) end) m.old m.new }
{
    let count = m.registers.frame.places;
    let scope = scope_of(&m.registers, place, args);
    for n in 0..lights.count() {
        lights.ask(n, &scope.points.planes());
        let answers = lights.answers(n);
        let seen = answers.seen(&scope.cones, count);
        let live = m.live;
        m.live = live.and(&seen, count);
        m.enter(&answers);
        run_block(body, m, lights, textures, most);
        let others = live.without(&seen, count);
        m.live = m.live.or(&others, count);
    }
}

// The body under the light's own directions, which stand in the scratch row, where they are seen.
#[cycle(run)]
fn run_lit<L: Illumination, T: Textures>(
    seen: &Mask,
    body: &[Node],
    m: &mut Machine,
    lights: &mut L,
    textures: &mut T,
    most: u32,
)
    requires whole { Whole m.old }
    requires direction { HasRegister m.old (name_at names.L) }
    requires lit { HasRegister m.old lit_at }
    requires body { ReadyIn m.old (block_of body.now) }
    requires places { (L.lighting lights.old).places ≡ m.old.registers.frame.now.places }
    ensures kept { Kept m.old m.new }
    ensures same { L.lighting lights.new ≡ L.lighting lights.old }
    ensures images { T.images textures.new ≡ T.images textures.old }
    ensures near { RunsLit (beside (L.lighting lights.old).lights (T.images textures.old)) most (block_of body.now) seen.now.places m.old m.new }
{
    let count = m.registers.frame.places;
    let live = m.live;
    m.live = live.and(seen, count);
    m.kindle();
    run_block(body, m, lights, textures, most);
    let others = live.without(seen, count);
    m.live = m.live.or(&others, count);
}
