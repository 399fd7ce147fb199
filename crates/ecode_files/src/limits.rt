// A file at the limit of every room: 32 sensors, actuators and tasks, 128 inputs and outputs, 288 drivers, 256 guards, 8 modes, 4,096 instructions.

// A file that grows at its end; what does not fit is lost.
#[derive(Drop)]
struct Growing<'a> {
    file: &'a mut [u8],
    size: usize,
}

impl<'a> Growing<'a> {
    fn put(&mut self, bytes: &[u8]) {
        for byte in bytes {
            if self.size < self.file.len() {
                self.file[self.size] = *byte;
                self.size += 1;
            }
        }
    }

    fn repeat(&mut self, many: usize, bytes: &[u8]) {
        for _ in 0..many {
            self.put(bytes);
        }
    }

    fn ports(&mut self) {
        self.put(b"\x00\x00\xaa\x89\x01\x01M\x00\x20");
        self.repeat(32, b"\x01s\x00\x01g");
        self.put(b"\x00\x20");
        self.repeat(32, b"\x01a\x00\x00\x00\x00\x00\x01f");
    }

    fn tasks(&mut self) {
        self.put(b"\x00\x20");
        self.repeat(
            32,
            b"\x01t\x01f\x04\x00\x00\x00\x00\x04\x01o\x00\x00\x00\x00\x00\x01p\x00\x00\x00\x00\x00\x01q\x00\x00\x00\x00\x00\x01r\x00\x00\x00\x00\x00",
        );
    }

    fn drivers(&mut self) {
        self.put(b"\x01\x20");
        self.repeat(288, b"\x03\x00\x00\x00\x20");
        self.put(b"\x01\x00");
        self.repeat(256, b"\x06isTrue\x01\x01\x01\x00\x00\x00\x01");
    }

    fn code(&mut self) {
        self.put(b"\x00\x08\x01m\x01\x00\x00\x13\x88\x00\x00\x00\x00");
        self.repeat(7, b"\x01n\x00\x00\x00\x13\x88\x00\x00\x00\x00");
        self.put(b"\x10\x00");
        self.repeat(4096, b"\x06\xff\xff\xff\xff\xff\xff\xff\xff");
    }
}

// The file put to the front of a buffer, and how long it is.
pub(crate) fn fill(file: &mut [u8]) -> usize {
    let mut growing = Growing { file, size: 0 };
    growing.ports();
    growing.tasks();
    growing.drivers();
    growing.code();
    growing.size
}
