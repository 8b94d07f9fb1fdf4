use client_run::Status;
use std::env;
use std::env::Env;
use std::io::ErrorKind;

/// The words behind the program's name.
///
/// # Errors
/// `Usage` where a word isn't UTF-8; or `NoMemory`.
pub fn words_of<R: Env + AllocGlobal>(rt: &R) -> Result<Vec<String>, Status> {
    let mut given = match env::args(rt) {
        Ok(given) => given,
        Err(error) if error.kind() == ErrorKind::OutOfMemory => return Err(Status::NoMemory),
        Err(_) => return Err(Status::Usage),
    };
    let _ = given.next();
    let mut words = Vec::new(rt.alloc());
    for word in given {
        if words.push(word).is_err() {
            return Err(Status::NoMemory);
        }
    }
    Ok(words)
}
