//! Laws of the scene, proved by functions that do nothing when they run.
ghost use Rattle.scene_state.specs.Laws.{ShadersLaw, SurfaceLaw};

/// The use at the `surface` of each primitive that a request places is the surface request in force.
pub fn surface_in_force()
    ensures { SurfaceLaw }
{}

/// The uses of each primitive that a request places are the requests in force: at its surface, its displacement, its atmosphere
/// and each of its lights, in their order.
pub fn shaders_in_force()
    ensures { ShadersLaw }
{}
