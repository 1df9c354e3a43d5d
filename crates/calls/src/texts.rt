// Numbers and triples as the tables of other modules write them: raws, those of a triple in a row, triples behind one another with
// `,` between them.
use fixed_math::{Num, Vec3};
use std::alloc::Global;
use std::test::Fail;

/// The number of a word.
pub fn raw(word: Option<&str>) -> Result<Num, Fail> {
    let raw: i64 = word.ok_or("no raw")?.parse()?;
    Ok(Num::sat(raw as i128))
}

/// The triple of three words.
pub fn triple(cell: &str) -> Result<Vec3, Fail> {
    let mut words = cell.split_whitespace();
    Ok(Vec3 {
        x: raw(words.next())?,
        y: raw(words.next())?,
        z: raw(words.next())?,
    })
}

/// The triples of a text.
pub fn triples(alloc: Global, text: &str) -> Result<Vec<Vec3>, Fail> {
    let mut triples = Vec::new(alloc);
    for cell in text.split(',') {
        triples.push(triple(cell)?)?;
    }
    Ok(triples)
}

/// The text of triples.
pub fn written(alloc: Global, triples: &[Vec3]) -> Result<String, Fail> {
    let mut text = String::new(alloc);
    for v in triples {
        if !text.is_empty() {
            text.push_str(", ")?;
        }
        let one = format!(in alloc; "{} {} {}", v.x.raw(), v.y.raw(), v.z.raw())?;
        text.push_str(one.as_str())?;
    }
    Ok(text)
}
