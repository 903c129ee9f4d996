// Folders for the files of one test.
ghost use Rattle.std.specs.Prelude.{◌≡◌, ◌≤◌, IfOk};

use host_adapters::FileMapper;
use std::io::ErrorKind;
use std::{env, fs, io, process};

// A new folder for the files of one test of this process.
pub(crate) fn new_folder(rt: &HostRuntime, test: &str) -> io::Result<String> {
    let name = format!(in rt.alloc(); "chorusvm_{test}_{}", process::id(rt.process()))?;
    let folder = env::temp_dir(rt)?
        .join(rt.alloc(), name.as_str())?
        .into_string();
    fs::create_dir(rt, folder.as_str())?;
    Ok(folder)
}

pub(crate) fn path_in(rt: &HostRuntime, folder: &str, name: &str) -> io::Result<String> {
    Ok(format!(in rt.alloc(); "{folder}/{name}")?)
}

// A mapper over the files of a folder, with pages of so many bytes.
pub(crate) fn mapper_over<'a>(
    rt: &'a HostRuntime,
    folder: &str,
    page: u32,
) -> io::Result<FileMapper<'a>>
    requires { 1 ≤ page }
    ensures { IfOk result (λ m. m.page_bytes ≡ page) }
{
    match FileMapper::new(rt, rt.alloc(), folder, page) {
        Ok(mapper) => Ok(mapper),
        Err(_) => Err(io::Error::from(ErrorKind::OutOfMemory)),
    }
}
