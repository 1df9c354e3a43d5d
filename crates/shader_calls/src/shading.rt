// Shaders on the grid of a piece, from the texts of a scene and of its one shader.
use bumpalo::Bump;
use calls::texts::written;
use dice::GridRef;
use displace_shade::Shop;
use outside::MemoryLibrary;
use patches::Piece;
use render::{Accepted, accept};
use std::alloc::Global;
use std::test::Fail;

/// The text of a scene, and the file of its shader.
#[derive(Clone, Copy)]
pub struct Texts<'a> {
    pub scene: &'a [u8],
    pub file: &'a str,
    pub shader: &'a [u8],
}

impl Texts<'_> {
    fn library(&self, alloc: Global) -> Result<MemoryLibrary, Fail> {
        let mut library = MemoryLibrary::new(alloc);
        library.add(self.file, self.shader)?;
        Ok(library)
    }

    /// The scene with its shader, accepted.
    pub fn accepted(&self, alloc: Global) -> Result<Accepted, Fail> {
        let mut library = self.library(alloc)?;
        if self.scene.len() > 16777216 {
            return Err("too long a scene")?;
        }
        match accept(alloc, self.scene, &mut library) {
            Ok(accepted) => Ok(accepted),
            Err(_) => Err("refused")?,
        }
    }

    /// The shaded grid of a piece of the first frame, of 2^`p` + 1 columns and 2^`q` + 1 rows, in the arena.
    pub fn grid<'b>(
        &self,
        arena: &'b Bump,
        alloc: Global,
        piece: &Piece,
        p: u8,
        q: u8,
    ) -> Result<GridRef<'b>, Fail> {
        let mut library = self.library(alloc)?;
        if self.scene.len() > 16777216 {
            return Err("too long a scene")?;
        }
        let Ok(
            Accepted {
                scene,
                set,
                textures,
            },
        ) = accept(alloc, self.scene, &mut library)
        else {
            return Err("refused")?;
        };
        let [frame] = scene.frames.as_slice() else {
            return Err("one frame")?;
        };
        if piece.prim as usize >= frame.prims.len() || p > 4 || q > 4 {
            return Err("a leaf of the frame")?;
        }
        let mut shop = Shop::new(alloc, set, textures.as_slice())?;
        Ok(shop.shade(arena, &scene, 0, piece, p, q)?)
    }
}

/// The colours that a surface of that text leaves at the 15 points of the grid of three columns and five rows over the square from
/// (-1, -1) to (1, 1) at depth 1, by rows, in a world that begins with these requests.
pub fn shaded(alloc: Global, world: &str, shader: &str) -> Result<String, Fail> {
    let scene = format!(in alloc;
        "WorldBegin {world} Surface \"m\" Patch \"bilinear\" \"P\" [-1 -1 1 1 -1 1 -1 1 1 1 1 1] WorldEnd"
    )?;
    let texts = Texts {
        scene: scene.as_bytes(),
        file: "m.sl",
        shader: shader.as_bytes(),
    };
    let arena = Bump::new(alloc);
    let grid = texts.grid(&arena, alloc, &Piece::whole(0), 1, 2)?;
    written(alloc, grid.ci)
}

/// The same of a surface whose colour is that value; `part(w)` is the colour with the components of a triple.
pub fn colours(alloc: Global, world: &str, value: &str) -> Result<String, Fail> {
    let shader = format!(in alloc;
        "color part(vector w) {{ return color (xcomp(w), ycomp(w), zcomp(w)); }} surface m() {{ Ci = {value}; }}"
    )?;
    shaded(alloc, world, shader.as_str())
}
