// The chains of a mesh as they stand written down, so that they are followed once.
ghost use Rattle.std.specs.Prelude.{◌≡◌, ◌+◌, ◌-◌, ◌≤◌};
ghost use Rattle.vocabulary.specs.Intervals.{blocks};
ghost use Rattle.mesh.specs.Mesh.{elements, chain};
ghost use Rattle.mesh.specs.Meet.{Sizes};
ghost use Rattle.mesh_chains.specs.Written.{Written};

// The bytes of a mesh of right sizes, with the dimension of its cells and its counts of elements and records.
#[derive(Clone, Copy)]
pub struct SizedMesh<'a> {
    pub bytes: &'a [u8],
    pub top: usize,
    pub elements: usize,
    pub records: usize,
    pub ghost sized: { Sizes bytes.now top elements records },
}

// A mesh that test 4 accepts, the elements of all its chains, one chain after another, and the place after each chain.
#[derive(Clone, Copy)]
pub struct Chains<'a> {
    pub mesh: SizedMesh<'a>,
    pub items: &'a [u16],
    pub ends: &'a [u16],
    pub ghost written: { Written mesh.bytes.now items.now ends.now },
}

impl<'a> Chains<'a> {
    // The elements of the chain of e.
    pub fn row(self, e: usize) -> &'a [u16]
        requires { (1 ≤ e) × (e ≤ elements self.mesh.bytes.now) }
        ensures { result.now ≡ chain self.entry.mesh.bytes.now e }
    {
        &self.items[usize::from(self.ends[e - 1])..usize::from(self.ends[e])]
    }

    // The elements of all chains after that of e.
    pub fn rows_after(self, e: usize) -> &'a [u16]
        requires { e ≤ self.mesh.elements }
        ensures { result.now ≡ blocks (1 + e) (self.entry.mesh.elements - e) (chain self.entry.mesh.bytes.now) }
    {
        &self.items[usize::from(self.ends[e])..usize::from(self.ends[self.mesh.elements])]
    }
}
