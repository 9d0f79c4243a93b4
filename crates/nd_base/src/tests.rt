//! Arrays: which shapes are refused, and attributes by their names.

use crate::{
    AttrValue, Attrs, Dim, Head, Name, Names, NdArray, OutOfMemory, SampleType, ShapeFault,
};
use std::alloc::Global;
use std::test::Fail;

fn head(alloc: Global) -> Result<Head, OutOfMemory> {
    let name = Name::new(String::from_str(alloc, "ColorMode")?);
    let names = Names::new(alloc, vec![in alloc; name]?)?;
    Ok(Head {
        id: 7,
        stamp: 1,
        sec: 2,
        nsec: 3,
        attrs: Attrs::new(names, vec![in alloc; AttrValue::Whole(0)]?),
    })
}

fn dims(alloc: Global, sizes: &[u32]) -> Result<Vec<Dim>, OutOfMemory> {
    let mut dims = Vec::new(alloc);
    for size in sizes {
        dims.push(Dim {
            size: *size,
            offset: 0,
            binning: 1,
            reverse: false,
        })?;
    }
    Ok(dims)
}

/// An array of these sizes with so many zero bytes.
fn zeros(
    alloc: Global,
    kind: SampleType,
    sizes: &[u32],
    bytes: usize,
) -> Result<Option<ShapeFault>, OutOfMemory> {
    let samples = vec![in alloc; 0; bytes]?;
    match NdArray::new(alloc, head(alloc)?, kind, dims(alloc, sizes)?, samples) {
        Ok(_) => Ok(None),
        Err(fault) => Ok(Some(fault)),
    }
}

#[test]
fn refusals_come_in_their_order(rt: HostRuntime) -> Result<(), Fail> {
    let alloc = rt.alloc();
    let one_to_eleven: [u32; 11] = [1; 11];
    let rows = [
        (SampleType::UInt8, [2u32, 2].as_slice(), 4, None),
        (SampleType::Int16, [3, 1].as_slice(), 6, None),
        (SampleType::UInt32, [1].as_slice(), 4, None),
        (SampleType::UInt8, &one_to_eleven[..10], 1, None),
        (
            SampleType::UInt8,
            [].as_slice(),
            1,
            Some(ShapeFault::BadShape),
        ),
        (
            SampleType::UInt8,
            one_to_eleven.as_slice(),
            1,
            Some(ShapeFault::BadShape),
        ),
        (
            SampleType::UInt8,
            [0, 4_294_967_295, 2].as_slice(),
            0,
            Some(ShapeFault::BadShape),
        ),
        (
            SampleType::UInt8,
            [67_108_865].as_slice(),
            0,
            Some(ShapeFault::TooManySamples),
        ),
        (
            SampleType::UInt8,
            [4_294_967_295, 4_294_967_295, 4_294_967_295].as_slice(),
            1,
            Some(ShapeFault::TooManySamples),
        ),
        (
            SampleType::UInt8,
            [8_192, 8_192].as_slice(),
            1,
            Some(ShapeFault::BadShape),
        ),
        (
            SampleType::Int32,
            [2].as_slice(),
            4,
            Some(ShapeFault::BadShape),
        ),
    ];
    for (kind, sizes, bytes, fault) in rows {
        assert_eq!(rt;
            zeros(alloc, kind, sizes, bytes)?,
            fault,
            "{kind:?} {sizes:?} {bytes}"
        );
    }
    Ok(())
}

/// The whole value of the attribute of this name.
fn whole(array: &NdArray, name: &str) -> Option<i32> {
    match array.attr(name) {
        Some(AttrValue::Whole(value)) => Some(*value),
        _ => None,
    }
}

#[test]
fn an_attribute_is_found_by_its_name(rt: HostRuntime) -> Result<(), Fail> {
    let alloc = rt.alloc();
    let (head, samples) = (head(alloc)?, [9].to_vec(alloc)?);
    let array = NdArray::new(alloc, head, SampleType::UInt8, dims(alloc, &[1])?, samples);
    let array = array.map_err(|_| "refused")?;
    assert_eq!(rt; whole(&array, "ColorMode"), Some(0));
    assert_eq!(rt; whole(&array, "Color"), None);
    assert_eq!(rt; array.dims().len(), 1);
    Ok(())
}
