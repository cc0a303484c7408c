// The calls that write the image of a plan into lent bytes, and read one.
ghost use Rattle.gaplinte.specs.ImagesServed.{ImageWriteServed, ImageReadServed};

// Writes the image of a plan, and answers how many bytes it has. The bytes behind these are left alone.
#[unsafe(no_mangle)]
pub extern "C" fn gaplinte_write_image(rows: &[u16; 1408], buffer: &mut [u8]) -> i64
    ensures { ImageWriteServed rows.now buffer.old buffer.new result }
{
    gaplinte::image::gaplinte_write_image(rows, buffer)
}

// Reads an image into the record that is lent, which then has the image's tree.
#[unsafe(no_mangle)]
pub extern "C" fn gaplinte_read_image(rows: &mut [u16; 1408], image: &[u8]) -> i64
    ensures { ImageReadServed image.now rows.old rows.new result }
{
    gaplinte::image::gaplinte_read_image(rows, image)
}
