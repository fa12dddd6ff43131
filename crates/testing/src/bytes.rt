// The bytes at a place of a file. Past its end they are 0, and nothing is written there.

pub fn get<const N: usize>(file: &[u8], at: usize) -> [u8; N] {
    let Some(rest) = file.get(at..) else {
        return [0; N];
    };
    rest.first_chunk::<N>().copied().unwrap_or([0; N])
}

pub fn put<const N: usize>(file: &mut [u8], at: usize, bytes: [u8; N]) {
    if let Some(rest) = file.get_mut(at..) {
        if let Some(place) = rest.first_chunk_mut::<N>() {
            *place = bytes;
        }
    }
}
