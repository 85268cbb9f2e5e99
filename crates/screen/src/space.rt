// Space that is lent to the library.

// For a disk of either edition.
pub fn disk_space() -> [u8; 143360] {
    [0; 143360]
}

// For a nibble stream.
pub fn stream_space() -> [u8; 232960] {
    [0; 232960]
}

// For the longest catalog: 37 bytes an entry, 560 pages of 7.
pub fn catalog_space() -> [u8; 145040] {
    [0; 145040]
}

// For the longest file.
pub fn file_space() -> [u8; 66000] {
    [0; 66000]
}

// For the longest archive, 4,096 blocks.
pub fn archive_space() -> [u8; 1048576] {
    [0; 1048576]
}
