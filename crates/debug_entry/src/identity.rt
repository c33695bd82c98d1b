//! The identifier of an image.

ghost use Rattle.std.specs.Prelude.{◌≡◌};
ghost use Rattle.debug_entry.specs.Identifier.{image_identifier};

use uuid::Uuid;

/// The namespace of identifiers of images.
const NAMESPACE: [u8; 16] = [0, 1, 2, 3, 4, 5, 6, 7, 8, 9, 10, 11, 12, 13, 14, 15];

/// The identifier of the file of an image, in which it is zero yet: that of the file as a name, of version 5 (RFC 9562,
/// section 5.5).
pub fn image_identifier(image: &[u8]) -> [u8; 16]
    ensures { result ≡ image_identifier image.now }
{
    let namespace = Uuid::from_bytes(NAMESPACE);
    Uuid::new_v5(&namespace, image).into_bytes()
}
