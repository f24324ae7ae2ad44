//! What a disk stands for, in words: the birth of an image and the lost grains of its volume as bits, or why there is none.

use fc_base::ids::VolId;
use fc_format::half_with;
use fc_image::{MetaImage, MetaLost};
use fc_meta::Meta;
use fc_metadisk::MemMeta;
use meta_steps::first::image_of;
use std::alloc::{AllocError, Global};

/// The bytes of an image.
fn bytes_of(alloc: Global, image: &MetaImage) -> Result<Vec<u8>, AllocError> {
    match half_with(alloc, 0, image) {
        Ok(bytes) => Ok(bytes),
        Err(_) => Err(AllocError),
    }
}

/// The birth of an image and the grains that these rows say are lost.
fn words_of(alloc: Global, birth: u64, rows: &[MetaLost]) -> Result<String, AllocError> {
    match rows {
        [] => format!(in alloc; "{birth}"),
        [row] if row.volume == VolId(0) && row.lost.as_slice().len() == 1 => {
            let bits = row.lost.as_slice()[0];
            format!(in alloc; "{birth} {bits}")
        }
        _ => format!(in alloc; "{birth} and other rows"),
    }
}

/// An image, if it is plain.
fn image_text(alloc: Global, image: MetaImage) -> Result<String, AllocError> {
    let birth = image.next_birth;
    let words = words_of(alloc, birth, image.lost.as_slice())?;
    let found = bytes_of(alloc, &image)?;
    let plain = bytes_of(alloc, &image_of(alloc, birth, image.lost))?;
    if found.as_slice() == plain.as_slice() {
        Ok(words)
    } else {
        format!(in alloc; "another image")
    }
}

/// What a disk stands for.
pub fn found_text(alloc: Global, disk: MemMeta) -> Result<String, AllocError> {
    match Meta::recover(alloc, disk) {
        Ok((_, image)) => image_text(alloc, image),
        Err((_, error)) => format!(in alloc; "{error}"),
    }
}

/// Whether a disk stands for an image, or why not.
pub fn reason_text(alloc: Global, disk: MemMeta) -> Result<String, AllocError> {
    match Meta::recover(alloc, disk) {
        Ok(_) => format!(in alloc; "found"),
        Err((_, error)) => format!(in alloc; "{error}"),
    }
}
