//! Laws of lists.
ghost use Rattle.std.specs.Prelude.{◌≡◌, Option};
ghost use Rattle.oci_types.specs.Text.{Text};
ghost use Rattle.registry_model.specs.World.{World};
ghost use Rattle.registry_orders.specs.declared.listing.Form.{Form};
ghost use Rattle.registry_orders.specs.declared.listing.Listing.{Listing};
ghost use Rattle.order_carrying.specs.Listed.{IsListText};

/// A list of a world has one text in each form: what is said of the text says it whole.
pub fn a_list_has_one_text()
    ensures { (w : World) (listing : Listing) (form : Form) (text other : Option Text)
        → IsListText w listing form text → IsListText w listing form other → text ≡ other }
{}
