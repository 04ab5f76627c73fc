// The header and the records of a DCT image, by index. A byte past the end reads as 0, so that each index has its record.
#![tactic(auto)]

ghost use Rattle.std.specs.Prelude.{◌≡◌, ◌<◌};
ghost use Rattle.rules.specs.Image.{byte_at, u16_at, u32_at, is_an_image, fusion, offloading, edge_at, unit_at};
ghost use Rattle.image_records.specs.Records.{header_of, vertex_record, edge_record, unit_record};

// Not an Option of the counts: `read_header` promises these of any bytes, an image's or not.
#[derive(Clone, Copy, Debug, PartialEq, Eq)]
pub struct Header {
    pub is_image: bool,
    pub vertices: u16,
    pub edges: u16,
    pub units: u16,
    pub session: usize,
}

#[derive(Clone, Copy, Debug, PartialEq, Eq)]
pub struct VertexRecord {
    pub default_virtual: u8,
    pub layer: u16,
}

#[derive(Clone, Copy, Debug, PartialEq, Eq)]
pub struct EdgeRecord {
    pub left: u16,
    pub right: u16,
    pub weight: u32,
    pub condition: u16,
}

// As the image has it, like the other records: any byte may stand there, and image_refusal judges it.
#[derive(Clone, Copy, Debug, PartialEq, Eq)]
pub struct UnitRecord {
    pub kind: u8,
    pub edge: u16,
    pub vertex: u16,
}

#[tactic(auto, unfolding(rules::specs::Image::byte_at))]
fn byte_at(bytes: &[u8], at: usize) -> u8
    ensures { result ≡ byte_at bytes.now at }
{
    bytes.get(at).copied().unwrap_or(0)
}

// "Little-endian"
#[tactic(auto, unfolding(rules::specs::Image::u16_at))]
fn u16_at(bytes: &[u8], at: usize) -> u16
    requires { at < 4_000_000 }
    ensures { result ≡ u16_at bytes.now at }
{
    u16::from_le_bytes([byte_at(bytes, at), byte_at(bytes, at + 1)])
}

#[tactic(auto, unfolding(rules::specs::Image::u32_at, rules::specs::Image::u16_at))]
fn u32_at(bytes: &[u8], at: usize) -> u32
    requires { at < 3_000_000 }
    ensures { result ≡ u32_at bytes.now at }
{
    u32::from_le_bytes([
        byte_at(bytes, at),
        byte_at(bytes, at + 1),
        byte_at(bytes, at + 2),
        byte_at(bytes, at + 3),
    ])
}

fn edge_at(bytes: &[u8], e: u16) -> usize
    ensures { (result ≡ edge_at bytes.now e) × (result < 1_000_000) }
{
    let vertices = usize::from(u16_at(bytes, 6));
    12 + 3 * vertices + 10 * usize::from(e)
}

fn unit_at(bytes: &[u8], u: u16) -> usize
    ensures { (result ≡ unit_at bytes.now u) × (result < 2_000_000) }
{
    edge_at(bytes, u16_at(bytes, 8)) + 5 * usize::from(u)
}

// Each flag by its name: one function over the bit would say neither.
#[tactic(auto, using(crate::proofs::Tests::fusion_tests))]
pub fn fusion(bytes: &[u8]) -> bool
    ensures { result ≡ fusion bytes.now }
{
    matches!(byte_at(bytes, 5), 1 | 3)
}

#[tactic(auto, using(crate::proofs::Tests::offloading_tests))]
pub fn offloading(bytes: &[u8]) -> bool
    ensures { result ≡ offloading bytes.now }
{
    matches!(byte_at(bytes, 5), 2 | 3)
}

#[tactic(auto, using(crate::proofs::Tests::image_tests))]
fn is_image(bytes: &[u8]) -> bool
    ensures { result ≡ is_an_image bytes.now }
{
    bytes.len() >= 12
        && bytes.starts_with(b"DCT")
        && u16_at(bytes, 3) == 1
        && byte_at(bytes, 5) <= 3
}

pub fn read_header(bytes: &[u8]) -> Header
    ensures { result ≡ header_of bytes.now }
{
    let units = u16_at(bytes, 10);
    Header {
        is_image: is_image(bytes),
        vertices: u16_at(bytes, 6),
        edges: u16_at(bytes, 8),
        units,
        session: unit_at(bytes, units),
    }
}

pub fn vertex_record(bytes: &[u8], v: u16) -> VertexRecord
    ensures { result ≡ vertex_record bytes.now v }
{
    let at = 12 + 3 * usize::from(v);
    VertexRecord {
        default_virtual: byte_at(bytes, at),
        layer: u16_at(bytes, at + 1),
    }
}

pub fn edge_record(bytes: &[u8], e: u16) -> EdgeRecord
    ensures { result ≡ edge_record bytes.now e }
{
    let at = edge_at(bytes, e);
    EdgeRecord {
        left: u16_at(bytes, at),
        right: u16_at(bytes, at + 2),
        weight: u32_at(bytes, at + 4),
        condition: u16_at(bytes, at + 8),
    }
}

pub fn unit_record(bytes: &[u8], u: u16) -> UnitRecord
    ensures { result ≡ unit_record bytes.now u }
{
    let at = unit_at(bytes, u);
    UnitRecord {
        kind: byte_at(bytes, at),
        edge: u16_at(bytes, at + 1),
        vertex: u16_at(bytes, at + 3),
    }
}
