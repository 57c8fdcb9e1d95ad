use crate::{FetchError, MemFiles, MemSink, PutError, RealFiles, RealSink, SureFiles, SureSink};
use std::rt;

fn is_shared<T: Send + Sync>() {}

/// Each type that holds no runtime may go to another thread and be read by several.
fn memory_is_shared() {
    is_shared::<FetchError>();
    is_shared::<PutError>();
    is_shared::<MemFiles>();
    is_shared::<MemSink>();
    is_shared::<SureFiles>();
    is_shared::<SureSink>();
}

/// The others may where their runtime may.
fn system_is_shared<R: rt::Files + Print + Sync + 'static>() {
    is_shared::<RealFiles<'static, R>>();
    is_shared::<RealSink<'static, R>>();
}
