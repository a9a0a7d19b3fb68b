//! Why a registry of either layout is not opened.
use registry_store::OpenFault;
use store_pack::PackFault;

/// Why a registry is not opened, or not made. `R` says why its file of contents is not.
#[derive(Drop)]
pub enum LayoutFault<R: Drop> {
    /// Its tables are not.
    Tables(OpenFault),
    /// Its contents are not those that its rows name.
    Pack(PackFault),
    /// Its file of contents is not found, or not made.
    File(R),
}
