use media_types::{FileHashes, NewFile, SearchDistance, Sha};

/// What is recorded of a file.
#[derive(Debug, Drop)]
pub struct FileRow {
    pub sha: Sha,
    pub hashes: FileHashes,
    /// In bytes.
    pub size: u64,
    /// In pixels.
    pub width: u32,
    /// In pixels.
    pub height: u32,
    /// False once the file is deleted.
    pub live: bool,
    /// The greatest distance within which its duplicates were searched, or none.
    pub searched: Option<SearchDistance>,
}

impl From<NewFile> for FileRow {
    ghost use Rattle.std.specs.Prelude.{◌≡◌};
    ghost use Rattle.file_records.specs.Rows.{row_of};

    ghost from_gives = { λ file row. row ≡ row_of file };

    fn from(file: NewFile) -> FileRow {
        FileRow {
            sha: file.sha,
            hashes: file.hashes,
            size: file.size,
            width: file.width,
            height: file.height,
            live: true,
            searched: None,
        }
    }
}
