// The number of patches of a demonstration scene.
ghost use Rattle.std.specs.Prelude.{◌≤◌};

/// How many patches a demonstration scene has, 1 to 1,000.
#[derive(Drop)]
pub struct PatchCount {
    pub count: u32,
    pub ghost some: { 1 ≤ count },
    pub ghost few: { count ≤ 1000 },
}
