// Laws of the bytes of images.

ghost use Rattle.std.specs.Prelude.{◌≡◌, ℕ, List, ◌++◌};
ghost use Rattle.image_form.specs.Form.{Form, image_bytes, IsImage, ImageOf};

/// No image's bytes begin another's.
pub fn no_image_begins_another()
    ensures { (a b : Form) (x y : List ℕ) → IsImage a → IsImage b → image_bytes a ++ x ≡ image_bytes b ++ y → (a ≡ b) × (x ≡ y) }
{}

/// Bytes are those of one image at most.
pub fn one_image()
    ensures { (bytes : List ℕ) (a b : Form) → ImageOf bytes a → ImageOf bytes b → a ≡ b }
{}
