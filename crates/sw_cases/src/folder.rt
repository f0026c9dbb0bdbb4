use crate::case::CaseFile;
use std::rt::Files;
use std::{fs, io};

/// The paths of what is in a folder, in the order of their bytes.
pub fn names_in<R: Files + AllocGlobal + Clone + Drop>(
    rt: &R,
    folder: &str,
) -> io::Result<Vec<String>> {
    let mut names = Vec::new(rt.alloc());
    for entry in fs::read_dir(rt, folder)? {
        let entry = entry?;
        names.push(format!(in rt.alloc(); "{folder}/{}", entry.file_name())?)?;
    }
    names.sort()?;
    Ok(names)
}

/// The paths of the case files of all topics, which are the folders in a folder.
pub fn topic_files<R: Files + AllocGlobal + Clone + Drop>(
    rt: &R,
    folder: &str,
) -> io::Result<Vec<String>> {
    let mut paths = Vec::new(rt.alloc());
    for topic in &names_in(rt, folder)? {
        let mut files = names_in(rt, topic.as_str())?;
        paths.append(&mut files)?;
    }
    Ok(paths)
}

/// The files of a folder, by their paths.
pub fn files_in<R: Files + AllocGlobal + Clone + Drop>(
    rt: &R,
    folder: &str,
) -> io::Result<Vec<CaseFile>> {
    let mut files = Vec::new(rt.alloc());
    for name in names_in(rt, folder)? {
        let bytes = fs::read(rt, name.as_str())?;
        files.push(CaseFile { name, bytes })?;
    }
    Ok(files)
}
